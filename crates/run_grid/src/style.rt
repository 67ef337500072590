//! How a grid looks, beside what all pictures share.

/// What a grid adds to the style sheet.
pub(crate) const STYLE: &str = "\
.round{fill:#5a5a5a;text-anchor:middle}
.lane{stroke-opacity:.45}
.box{fill:#f4f6fa;stroke:#b9c3d0}
.decided .box{stroke:#00705a;stroke-width:1.4}
.entry{font-family:ui-monospace,'DejaVu Sans Mono',Menlo,Consolas,monospace;font-size:11px}
.name{fill:#5b6676}
.dots{fill:none;stroke:#0062ad;stroke-width:6;stroke-linecap:round}
.quiet{fill:none;stroke:#9aa3b0;stroke-width:2.4;stroke-linecap:round}
.cell:hover .box{stroke-width:2}
@media (prefers-color-scheme:dark){
.round{fill:#b0b0b0}
.box{fill:#20262f;stroke:#465160}
.decided .box{stroke:#35c6a1}
.name{fill:#9aa5b5}
.dots{stroke:#69b7f0}
.quiet{stroke:#6f7885}
}
";
