//! Writing the head of a page.
ghost use Rattle.std.specs.Prelude.{OnErr, OnOk};
ghost use Rattle.std.specs.Io.KnownBytes.{Appends};
ghost use Rattle.html.specs.Written.{AppendsBeginning};
ghost use Rattle.page.specs.Heads.{marks_legend, page_head, page_legend, page_top};

use crate::sheet::SHEET;
use html::{write_bytes, write_plain};
use std::io::{self, Write};

/// Writes the page up to its first state.
pub(crate) fn write_head<O: Write>(out: &mut O) -> io::Result<()>
    ensures written { OnOk result (Appends (O.contents out.old) (O.contents out.new) page_head) }
    ensures cut { OnErr result (AppendsBeginning (O.contents out.old) (O.contents out.new) page_head) }
{
    write_top(out)?;
    write_plain(SHEET, out)?;
    write_bytes(b"</style>\n</head>\n<body>\n", out)?;
    write_legend(out)?;
    write_bytes(b"<main id=\"first\">\n", out)
}

/// Writes the page up to its style.
fn write_top<O: Write>(out: &mut O) -> io::Result<()>
    ensures written { OnOk result (Appends (O.contents out.old) (O.contents out.new) page_top) }
    ensures cut { OnErr result (AppendsBeginning (O.contents out.old) (O.contents out.new) page_top) }
{
    write_bytes(
        b"<!DOCTYPE html>\n<html lang=\"en\">\n<head>\n<meta charset=\"utf-8\">\n",
        out,
    )?;
    write_bytes(
        b"<meta http-equiv=\"Content-Security-Policy\" content=\"default-src 'none'; style-src 'unsafe-inline'\">\n",
        out,
    )?;
    write_bytes(
        b"<meta name=\"viewport\" content=\"width=device-width, initial-scale=1\">\n",
        out,
    )?;
    write_bytes(b"<title>A tree, state by state</title>\n<style>\n", out)
}

/// Writes what the marks of a page mean, and links to its states.
fn write_legend<O: Write>(out: &mut O) -> io::Result<()>
    ensures written { OnOk result (Appends (O.contents out.old) (O.contents out.new) page_legend) }
    ensures cut { OnErr result (AppendsBeginning (O.contents out.old) (O.contents out.new) page_legend) }
{
    write_bytes(b"<header><h1>A tree, state by state</h1>\n", out)?;
    write_marks(out)?;
    write_bytes(
        b"<p><a href=\"#first\">First state</a> <a href=\"#states\">All states</a></p></header>\n",
        out,
    )
}

/// Writes what the marks of a page mean.
fn write_marks<O: Write>(out: &mut O) -> io::Result<()>
    ensures written { OnOk result (Appends (O.contents out.old) (O.contents out.new) marks_legend) }
    ensures cut { OnErr result (AppendsBeginning (O.contents out.old) (O.contents out.new) marks_legend) }
{
    write_bytes(
        b"<p class=\"legend\"><em class=\"a\">added</em> <em class=\"u\">updated</em> ",
        out,
    )?;
    write_bytes(
        b"<em class=\"r\">removed</em> <em class=\"f\">focus</em> ",
        out,
    )?;
    write_bytes(b"<em class=\"h\">hidden or clipped</em></p>\n", out)
}
