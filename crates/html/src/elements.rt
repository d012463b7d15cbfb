//! Writing elements and attributes with texts in them.
ghost use Rattle.std.specs.Prelude.{OnErr, OnOk};
ghost use Rattle.std.specs.Io.KnownBytes.{Appends};
ghost use Rattle.html.specs.Escaped.{attribute_text, content_text, element_text};
ghost use Rattle.html.specs.Written.{AppendsBeginning};

use crate::escaping::write_escaped;
use crate::writing::{write_bytes, write_plain};
use std::io::{self, Write};

/// Writes a space, and an attribute with this name and this text as its value: ` name="text"`. The name is written
/// unchanged.
///
/// # Errors
///
/// Returns the error of the output. A beginning of the attribute has then been written.
pub fn write_attribute<O: Write>(name: &str, text: &str, out: &mut O) -> io::Result<()>
    ensures written { OnOk result (Appends (O.contents out.old) (O.contents out.new) (attribute_text name.now text.now)) }
    ensures cut { OnErr result (AppendsBeginning (O.contents out.old) (O.contents out.new) (attribute_text name.now text.now)) }
{
    write_bytes(b" ", out)?;
    write_plain(name, out)?;
    write_bytes(b"=\"", out)?;
    write_escaped(text, out)?;
    write_bytes(b"\"", out)
}

/// Writes an element with this name and class, and this text in it: `<name class="class">text</name>`. The name is
/// written unchanged.
///
/// # Errors
///
/// Returns the error of the output. A beginning of the element has then been written.
pub fn write_element<O: Write>(name: &str, class: &str, text: &str, out: &mut O) -> io::Result<()>
    ensures written { OnOk result (Appends (O.contents out.old) (O.contents out.new) (element_text name.now class.now text.now)) }
    ensures cut { OnErr result (AppendsBeginning (O.contents out.old) (O.contents out.new) (element_text name.now class.now text.now)) }
{
    write_bytes(b"<", out)?;
    write_plain(name, out)?;
    write_attribute("class", class, out)?;
    write_content(name, text, out)
}

/// Writes the end of an element's start tag, its contents, and its end tag.
fn write_content<O: Write>(name: &str, text: &str, out: &mut O) -> io::Result<()>
    ensures written { OnOk result (Appends (O.contents out.old) (O.contents out.new) (content_text name.now text.now)) }
    ensures cut { OnErr result (AppendsBeginning (O.contents out.old) (O.contents out.new) (content_text name.now text.now)) }
{
    write_bytes(b">", out)?;
    write_escaped(text, out)?;
    write_bytes(b"</", out)?;
    write_plain(name, out)?;
    write_bytes(b">", out)
}
