//! What all pictures have in common: the file, its frame, and the heading.
use crate::heading::Heading;
use crate::style::{MARKERS, STYLE};
use std::io;
use std::io::Write;

/// The frame of a picture: its heading and its size in pixels. What is written between
/// [`Frame::begin`] and [`Frame::begin_marks`] is the picture in words.
#[derive(Clone, Copy)]
pub struct Frame<'a> {
    pub heading: Heading<'a>,
    pub width: u32,
    pub height: u32,
}

impl Frame<'_> {
    /// Writes the beginning of an SVG file, or of an HTML page in which a wide picture is scrolled,
    /// up to the description.
    pub fn begin<O: Write>(&self, out: &mut O) -> io::Result<()> {
        let Frame {
            heading,
            width,
            height,
        } = self;
        if heading.view.html {
            begin_page(heading, out)?;
        } else {
            writeln!(out, "<?xml version=\"1.0\" encoding=\"UTF-8\"?>")?;
        }
        write!(
            out,
            "<svg xmlns=\"http://www.w3.org/2000/svg\" version=\"1.1\" width=\"{width}\" "
        )?;
        writeln!(
            out,
            "height=\"{height}\" viewBox=\"0 0 {width} {height}\" role=\"img\" \
             aria-labelledby=\"title description\">"
        )?;
        writeln!(out, "<title id=\"title\">{heading}</title>")?;
        write!(out, "<desc id=\"description\">")
    }

    /// Writes the end of the description, the style sheet with what a kind of picture adds to it,
    /// the ends of arrows, the ground and the heading.
    pub fn begin_marks<O: Write>(&self, added_style: &str, out: &mut O) -> io::Result<()> {
        let Frame {
            heading,
            width,
            height,
        } = self;
        writeln!(out, "</desc>\n<style>")?;
        out.write_all(STYLE.as_bytes())?;
        out.write_all(added_style.as_bytes())?;
        writeln!(out, "</style>\n<defs>")?;
        out.write_all(MARKERS.as_bytes())?;
        writeln!(out, "</defs>")?;
        writeln!(
            out,
            "<rect class=\"page\" width=\"{width}\" height=\"{height}\"/>"
        )?;
        writeln!(
            out,
            "<text class=\"heading\" x=\"16\" y=\"28\">{heading}</text>"
        )
    }

    /// Writes the end of the file or of the page.
    pub fn end<O: Write>(&self, out: &mut O) -> io::Result<()> {
        writeln!(out, "</svg>")?;
        if self.heading.view.html {
            writeln!(out, "</body>\n</html>")?;
        }
        Ok(())
    }
}

fn begin_page<O: Write>(heading: &Heading<'_>, out: &mut O) -> io::Result<()> {
    writeln!(out, "<!DOCTYPE html>\n<html lang=\"en\">\n<head>")?;
    writeln!(out, "<meta charset=\"utf-8\"/>\n<title>{heading}</title>")?;
    out.write_all(PAGE_STYLE.as_bytes())?;
    writeln!(out, "</head>\n<body>")
}

const PAGE_STYLE: &str = "\
<meta name=\"color-scheme\" content=\"light dark\"/>
<style>
body{margin:0;background:#fff}
@media (prefers-color-scheme:dark){body{background:#15181d}}
</style>
";
