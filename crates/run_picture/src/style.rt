//! How a picture looks: its one style sheet, and what arrows end in.

/// The style sheet. Colours are such that they're told apart without red or green, and what they
/// say is also said by forms.
pub(crate) const STYLE: &str = "\
text{font-family:sans-serif;font-size:12px;fill:#1b1b1b}
.heading{font-size:16px;font-weight:bold}
.note{fill:#5a5a5a;font-size:11px}
.number{fill:#5a5a5a;font-size:11px}
.page{fill:#fff}
.odd{fill:#dce6f2}
.even{fill:#eef2f7}
.unclosed{stroke:#8a8a8a;stroke-dasharray:2 3}
.lane{stroke:#5a5a5a}
.rest{stroke:#a5a5a5;stroke-dasharray:1 5}
.send,.receive,.ends path{fill:#1b1b1b}
.silence{fill:#fff;stroke:#1b1b1b;stroke-width:1.3}
.idle{fill:#8a8a8a}
.end,.stop path{stroke:#1b1b1b;stroke-width:2.5}
.stop path{stroke:#a8216b;stroke-width:4}
.heard path,.missed path,.spare path,.open path{fill:none;stroke-width:1.2}
.heard path{stroke:#0062ad}
.missed path,.spare path{stroke:#6f6f6f;stroke-dasharray:5 3}
.open path{stroke:#7d4fa0;stroke-dasharray:1.5 2.5}
.heard .made,.missed .made,.spare .made,.open .made{font-size:11px;font-weight:bold}
.to{font-size:10px;text-anchor:middle}
.heard .taken{marker-end:url(#heard)}
.open .taken{marker-end:url(#open)}
.late,.early{marker-end:url(#late)}
.dropped{marker-end:url(#dropped)}
.waiting{marker-end:url(#left)}
.many .heard .line{stroke-width:0.8;stroke-opacity:0.6;marker-end:url(#small)}
.heard-head{fill:#0062ad}
.late-head{fill:#6f6f6f}
.open-head{fill:#7d4fa0}
.cross{fill:none;stroke:#c2410c;stroke-width:2.2}
.ring{fill:#fff;stroke:#6f6f6f;stroke-width:1.3}
.flag path{fill:#00705a;stroke:#00705a}
.flag text{fill:#fff;font-weight:bold;text-anchor:middle}
g .hit{fill:none;stroke-opacity:0;stroke-width:9;stroke-dasharray:none;marker-end:none}
g:hover>.line,.many g:hover>.line{stroke-width:3;stroke-opacity:1}
@media (prefers-color-scheme:dark){
text{fill:#ececec}
.note,.number{fill:#b0b0b0}
.page{fill:#15181d}
.odd{fill:#2b3542}
.even{fill:#20262f}
.lane{stroke:#b0b0b0}
.rest{stroke:#6a6a6a}
.send,.receive,.ends path{fill:#ececec}
.silence{fill:#15181d;stroke:#ececec}
.end{stroke:#ececec}
.stop path{stroke:#f27bb8}
.heard path{stroke:#69b7f0}
.missed path,.spare path{stroke:#a8a8a8}
.open path{stroke:#c39be6}
.heard-head{fill:#69b7f0}
.late-head{fill:#a8a8a8}
.open-head{fill:#c39be6}
.cross{stroke:#ff9552}
.ring{fill:#15181d;stroke:#a8a8a8}
.flag path{fill:#35c6a1;stroke:#35c6a1}
.flag text{fill:#0b0d10}
}
";

/// What arrows end in: heads, a cross, and a ring for an open end.
pub(crate) const MARKERS: &str = "\
<marker id=\"heard\" markerUnits=\"userSpaceOnUse\" markerWidth=\"9\" markerHeight=\"8\" \
refX=\"8\" refY=\"4\" orient=\"auto\"><path class=\"heard-head\" d=\"M0 0.5L9 4L0 7.5z\"/></marker>
<marker id=\"small\" markerUnits=\"userSpaceOnUse\" markerWidth=\"6\" markerHeight=\"5\" \
refX=\"5\" refY=\"2.5\" orient=\"auto\">\
<path class=\"heard-head\" d=\"M0 0.5L6 2.5L0 4.5z\"/></marker>
<marker id=\"late\" markerUnits=\"userSpaceOnUse\" markerWidth=\"9\" markerHeight=\"8\" \
refX=\"8\" refY=\"4\" orient=\"auto\"><path class=\"late-head\" d=\"M0 0.5L9 4L0 7.5z\"/></marker>
<marker id=\"open\" markerUnits=\"userSpaceOnUse\" markerWidth=\"9\" markerHeight=\"8\" \
refX=\"8\" refY=\"4\" orient=\"auto\"><path class=\"open-head\" d=\"M0 0.5L9 4L0 7.5z\"/></marker>
<marker id=\"dropped\" markerUnits=\"userSpaceOnUse\" markerWidth=\"12\" markerHeight=\"12\" \
refX=\"6\" refY=\"6\"><path class=\"cross\" d=\"M2 2L10 10M10 2L2 10\"/></marker>
<marker id=\"left\" markerUnits=\"userSpaceOnUse\" markerWidth=\"10\" markerHeight=\"10\" \
refX=\"5\" refY=\"5\"><circle class=\"ring\" cx=\"5\" cy=\"5\" r=\"3.5\"/></marker>
";
