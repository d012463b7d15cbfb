//! Writing the head of each state, what comes of it, and the end of a page.
ghost use Rattle.std.specs.Prelude.{◌≡◌, OnErr, OnOk};
ghost use Rattle.std.specs.Io.KnownBytes.{Appends};
ghost use Rattle.html.specs.Written.{AppendsBeginning};
ghost use Rattle.page.specs.States.{
  cause_line,
  cause_of,
  cause_text,
  count_text,
  em_begun,
  fault_text,
  heading,
  heading_line,
  host_cause,
  item_text,
  items_from,
  next_link,
  outcome_of,
  outcome_of_events,
  outcome_text,
  outcome_word,
  page_end,
  previous_link,
  reason_text,
  same_text,
  section_end,
  some_text,
  some_title,
  state_begun,
  state_link,
  state_link_begun,
  state_word,
  stop_begun,
  stop_text,
  summary_text,
  tally_text,
  title_text,
  update_text,
  why_text,
};

use crate::stops::Ending;
use crate::tally::Tally;
use accesskit_consumer::UpdateError;
use atree_script::Stop;
use html::{write_bytes, write_escaped_bytes, write_number, write_plain};
use session::{Command, Reply};
use std::io::{self, Write};

/// The outcome of a state.
#[derive(Clone, Copy, Debug, PartialEq, Eq)]
pub(crate) enum Outcome {
    /// The first update was accepted, which has no events.
    Begun,
    Changed,
    /// Nothing has changed.
    Same,
    Refused(UpdateError),
}

/// The cause of a state.
#[derive(Clone, Copy, Debug, PartialEq, Eq)]
pub(crate) enum Cause {
    /// The update with this number, counted from 1.
    Update(u64),
    /// The host window has got the focus.
    HostOn,
    /// The host window has lost the focus.
    HostOff,
}

/// The summary of a state.
#[derive(Clone, Copy, Debug, PartialEq, Eq)]
pub(crate) struct Summary {
    pub cause: Cause,
    pub outcome: Outcome,
    pub tally: Tally,
}

/// A state as the list of all has it.
#[derive(Drop)]
pub(crate) struct Titled {
    /// The comment right before the command that makes the state; empty if no line of one is there.
    pub title: Vec<u8>,
    pub summary: Summary,
}

/// The cause of the state that a command makes after so many updates. Setting the host's focus to its current value makes
/// none, and neither does a query.
pub(crate) fn cause_of(command: &Command, is_host_focused: bool, updates: u64) -> Option<Cause>
    ensures { result ≡ cause_of is_host_focused updates command.now }
{
    match command {
        Command::Update(_) => Some(Cause::Update(updates.saturating_add(1))),
        Command::HostFocus(is_focused) if *is_focused != is_host_focused => {
            Some(host_cause(*is_focused))
        }
        Command::HostFocus(_) | Command::Query(_) => None,
    }
}

/// The cause of a state in which the host's focus has changed.
fn host_cause(is_focused: bool) -> Cause
    ensures { result ≡ host_cause is_focused }
{
    match is_focused {
        true => Cause::HostOn,
        false => Cause::HostOff,
    }
}

/// The outcome of a step after the first update.
pub(crate) fn outcome_of(reply: &Reply, tally: Tally) -> Outcome
    ensures { result ≡ outcome_of reply.now tally }
{
    match reply {
        Reply::Refused(refusal) => Outcome::Refused(*refusal),
        _ => outcome_of_events(tally),
    }
}

/// The outcome of a step that wasn't refused.
fn outcome_of_events(tally: Tally) -> Outcome
    ensures { result ≡ outcome_of_events tally }
{
    match tally.is_empty() {
        true => Outcome::Same,
        false => Outcome::Changed,
    }
}

/// Ends the state before, if there is one, and begins the next one.
pub(crate) fn begin_state<O: Write>(
    number: u64,
    title: &[u8],
    cause: Cause,
    out: &mut O,
) -> io::Result<()>
    ensures { OnOk result (Appends (O.contents out.old) (O.contents out.new) (state_begun number title.now cause)) }
{
    write_next_link(number, out)?;
    write_heading(number, title, out)?;
    write_cause_line(cause, out)?;
    write_previous_link(number.saturating_sub(1), out)
}

/// Writes a link from the state before to the one with this number, and ends the state before, if there is one.
fn write_next_link<O: Write>(number: u64, out: &mut O) -> io::Result<()>
    ensures { OnOk result (Appends (O.contents out.old) (O.contents out.new) (next_link number)) }
{
    if number > 1 {
        write!(
            out,
            "<a class=\"next\" rel=\"next\" href=\"#state-{number}\">Next</a></section>\n"
        )?;
    }
    Ok(())
}

/// Writes a link to the state with this number, if there is one.
fn write_previous_link<O: Write>(number: u64, out: &mut O) -> io::Result<()>
    ensures { OnOk result (Appends (O.contents out.old) (O.contents out.new) (previous_link number)) }
{
    if number > 0 {
        write!(
            out,
            "<a class=\"prev\" rel=\"prev\" href=\"#state-{number}\">Previous</a>\n"
        )?;
    }
    Ok(())
}

/// Begins a state with its heading.
fn write_heading<O: Write>(number: u64, title: &[u8], out: &mut O) -> io::Result<()>
    ensures { OnOk result (Appends (O.contents out.old) (O.contents out.new) (heading number title.now)) }
{
    write!(out, "<section id=\"state-{number}\">\n")?;
    write_heading_line(number, title, out)
}

/// Writes the line with the number of a state, and its title if it has one.
fn write_heading_line<O: Write>(number: u64, title: &[u8], out: &mut O) -> io::Result<()>
    ensures { OnOk result (Appends (O.contents out.old) (O.contents out.new) (heading_line number title.now)) }
{
    write!(out, "<h2>State {number}")?;
    write_title(title, out)?;
    out.write_all(b"</h2>\n")
}

/// Writes the title of a state after its number, if it has one.
fn write_title<O: Write>(title: &[u8], out: &mut O) -> io::Result<()>
    ensures written { OnOk result (Appends (O.contents out.old) (O.contents out.new) (title_text title.now)) }
    ensures cut { OnErr result (AppendsBeginning (O.contents out.old) (O.contents out.new) (title_text title.now)) }
{
    if title.is_empty() {
        return Ok(());
    }
    write_some_title(title, out)
}

/// Writes a title after the number of a state.
fn write_some_title<O: Write>(title: &[u8], out: &mut O) -> io::Result<()>
    ensures written { OnOk result (Appends (O.contents out.old) (O.contents out.new) (some_title title.now)) }
    ensures cut { OnErr result (AppendsBeginning (O.contents out.old) (O.contents out.new) (some_title title.now)) }
{
    write_bytes(b": <bdi>", out)?;
    write_escaped_bytes(title, out)?;
    write_bytes(b"</bdi>", out)
}

/// Writes the line with the cause of a state.
fn write_cause_line<O: Write>(cause: Cause, out: &mut O) -> io::Result<()>
    ensures { OnOk result (Appends (O.contents out.old) (O.contents out.new) (cause_line cause)) }
{
    out.write_all(b"<p class=\"cause\">")?;
    write_cause(cause, out)?;
    out.write_all(b"</p>\n")
}

/// Writes the cause of a state.
fn write_cause<O: Write>(cause: Cause, out: &mut O) -> io::Result<()>
    ensures written { OnOk result (Appends (O.contents out.old) (O.contents out.new) (cause_text cause)) }
    ensures cut { OnErr result (AppendsBeginning (O.contents out.old) (O.contents out.new) (cause_text cause)) }
{
    match cause {
        Cause::Update(number) => write_update(number, out),
        Cause::HostOn => write_bytes(b"The host window gets the focus", out),
        Cause::HostOff => write_bytes(b"The host window loses the focus", out),
    }
}

/// Writes which update made a state.
fn write_update<O: Write>(number: u64, out: &mut O) -> io::Result<()>
    ensures written { OnOk result (Appends (O.contents out.old) (O.contents out.new) (update_text number)) }
    ensures cut { OnErr result (AppendsBeginning (O.contents out.old) (O.contents out.new) (update_text number)) }
{
    write_bytes(b"Update ", out)?;
    write_number(number, out)
}

/// Writes the outcome of a state.
pub(crate) fn write_outcome<O: Write>(number: u64, outcome: Outcome, out: &mut O) -> io::Result<()>
    ensures { OnOk result (Appends (O.contents out.old) (O.contents out.new) (outcome_text number outcome)) }
{
    match outcome {
        Outcome::Begun => out.write_all(b"<p class=\"note\">The tree begins.</p>\n"),
        Outcome::Changed => Ok(()),
        Outcome::Same => write_same(number.saturating_sub(1), out),
        Outcome::Refused(refusal) => write!(
            out,
            "<p class=\"refused\">Refused: {refusal}. Nothing has changed.</p>\n"
        ),
    }
}

/// Writes that nothing has changed since the state with this number.
fn write_same<O: Write>(before: u64, out: &mut O) -> io::Result<()>
    ensures { OnOk result (Appends (O.contents out.old) (O.contents out.new) (same_text before)) }
{
    write!(
        out,
        "<p class=\"note\">Nothing has changed since <a href=\"#state-{before}\">the state before</a>.</p>\n"
    )
}

/// Ends the page: says why the script stopped before its end, if it did, and lists the states.
pub(crate) fn write_end<O: Write>(states: &[Titled], ending: &Ending, out: &mut O) -> io::Result<()>
    ensures written { OnOk result (Appends (O.contents out.old) (O.contents out.new)
        (page_end states.now ending.now.ended ending.now.line ending.now.message.items)) }
    ensures cut { OnErr result (AppendsBeginning (O.contents out.old) (O.contents out.new)
        (page_end states.now ending.now.ended ending.now.line ending.now.message.items)) }
{
    end_section(states, out)?;
    write_stop(ending.ended, ending.line, &ending.message, out)?;
    write_bytes(
        b"</main>\n<nav id=\"states\" aria-label=\"States\"><h2>States</h2><ol>\n",
        out,
    )?;
    write_items(states, out)?;
    write_bytes(b"</ol></nav>\n</body>\n</html>\n", out)
}

/// Ends the last of these states, if there is one.
fn end_section<O: Write>(states: &[Titled], out: &mut O) -> io::Result<()>
    ensures written { OnOk result (Appends (O.contents out.old) (O.contents out.new) (section_end states.now)) }
    ensures cut { OnErr result (AppendsBeginning (O.contents out.old) (O.contents out.new) (section_end states.now)) }
{
    match states.first() {
        Some(_) => write_bytes(b"</section>\n", out),
        None => Ok(()),
    }
}

/// Writes why the script stopped before its end, if it did.
fn write_stop<O: Write>(
    ended: Result<(), Stop>,
    line: u64,
    message: &[u8],
    out: &mut O,
) -> io::Result<()>
    ensures written { OnOk result (Appends (O.contents out.old) (O.contents out.new) (stop_text ended line message.now)) }
    ensures cut { OnErr result (AppendsBeginning (O.contents out.old) (O.contents out.new) (stop_text ended line message.now)) }
{
    match ended {
        Ok(()) => Ok(()),
        Err(stop) => write_why(stop, line, message, out),
    }
}

/// Writes why the script stopped: of a bad line this message, and otherwise the line and a reason.
fn write_why<O: Write>(stop: Stop, line: u64, message: &[u8], out: &mut O) -> io::Result<()>
    ensures written { OnOk result (Appends (O.contents out.old) (O.contents out.new) (why_text stop line message.now)) }
    ensures cut { OnErr result (AppendsBeginning (O.contents out.old) (O.contents out.new) (why_text stop line message.now)) }
{
    match stop {
        Stop::BadLine => write_fault(message, out),
        Stop::Memory => write_reason(line, "no memory. The script stops here.", out),
        Stop::ReadFault => write_reason(line, "the next line can't be read.", out),
        Stop::WriteFault => write_reason(line, "the page can't be written.", out),
    }
}

/// Writes that the script stopped at a bad line, with what is wrong in it.
fn write_fault<O: Write>(message: &[u8], out: &mut O) -> io::Result<()>
    ensures written { OnOk result (Appends (O.contents out.old) (O.contents out.new) (fault_text message.now)) }
    ensures cut { OnErr result (AppendsBeginning (O.contents out.old) (O.contents out.new) (fault_text message.now)) }
{
    write_bytes(b"<p class=\"refused\">The script stops at ", out)?;
    write_escaped_bytes(message, out)?;
    write_bytes(b"</p>\n", out)
}

/// Writes why the script stopped at a line.
fn write_reason<O: Write>(line: u64, reason: &str, out: &mut O) -> io::Result<()>
    ensures written { OnOk result (Appends (O.contents out.old) (O.contents out.new) (reason_text line reason.now)) }
    ensures cut { OnErr result (AppendsBeginning (O.contents out.old) (O.contents out.new) (reason_text line reason.now)) }
{
    begin_stop(line, out)?;
    write_plain(reason, out)?;
    write_bytes(b"</p>\n", out)
}

/// Writes at which line the script stopped.
fn begin_stop<O: Write>(line: u64, out: &mut O) -> io::Result<()>
    ensures written { OnOk result (Appends (O.contents out.old) (O.contents out.new) (stop_begun line)) }
    ensures cut { OnErr result (AppendsBeginning (O.contents out.old) (O.contents out.new) (stop_begun line)) }
{
    write_bytes(b"<p class=\"refused\">Line ", out)?;
    write_number(line, out)?;
    write_bytes(b": ", out)
}

/// Writes an item for each state, counted from 1.
fn write_items<O: Write>(states: &[Titled], out: &mut O) -> io::Result<()>
    ensures written { OnOk result (Appends (O.contents out.old) (O.contents out.new) (items_from 1 states.now)) }
    ensures cut { OnErr result (AppendsBeginning (O.contents out.old) (O.contents out.new) (items_from 1 states.now)) }
{
    for (index, it) in states.iter().enumerate() {
        write_item(index + 1, it, out)?;
    }
    Ok(())
}

/// Writes an item for a state, as a link to it.
fn write_item<O: Write>(number: usize, it: &Titled, out: &mut O) -> io::Result<()>
    ensures written { OnOk result (Appends (O.contents out.old) (O.contents out.new) (item_text number it.now)) }
    ensures cut { OnErr result (AppendsBeginning (O.contents out.old) (O.contents out.new) (item_text number it.now)) }
{
    begin_item(number, &it.title, out)?;
    write_summary(it.summary, out)?;
    write_bytes(b"</li>\n", out)
}

/// Writes what made a state, which ends the small letters, and what came of it, in short.
fn write_summary<O: Write>(it: Summary, out: &mut O) -> io::Result<()>
    ensures written { OnOk result (Appends (O.contents out.old) (O.contents out.new) (summary_text it)) }
    ensures cut { OnErr result (AppendsBeginning (O.contents out.old) (O.contents out.new) (summary_text it)) }
{
    write_cause(it.cause, out)?;
    write_bytes(b"</small>", out)?;
    write_outcome_word(it.outcome, it.tally, out)
}

/// Begins an item with a link to its state.
fn begin_item<O: Write>(number: usize, title: &[u8], out: &mut O) -> io::Result<()>
    ensures written { OnOk result (Appends (O.contents out.old) (O.contents out.new) (state_link number title.now)) }
    ensures cut { OnErr result (AppendsBeginning (O.contents out.old) (O.contents out.new) (state_link number title.now)) }
{
    begin_state_link(number, out)?;
    write_state_word(number, title, out)
}

/// Begins an item, and a link to a state in it.
fn begin_state_link<O: Write>(number: usize, out: &mut O) -> io::Result<()>
    ensures written { OnOk result (Appends (O.contents out.old) (O.contents out.new) (state_link_begun number)) }
    ensures cut { OnErr result (AppendsBeginning (O.contents out.old) (O.contents out.new) (state_link_begun number)) }
{
    write_bytes(b"<li><a href=\"#state-", out)?;
    write_number(number as u64, out)?;
    write_bytes(b"\">", out)
}

/// Writes the text of a link to a state, ends it, and begins small letters.
fn write_state_word<O: Write>(number: usize, title: &[u8], out: &mut O) -> io::Result<()>
    ensures written { OnOk result (Appends (O.contents out.old) (O.contents out.new) (state_word number title.now)) }
    ensures cut { OnErr result (AppendsBeginning (O.contents out.old) (O.contents out.new) (state_word number title.now)) }
{
    write_bytes(b"State ", out)?;
    write_number(number as u64, out)?;
    write_title(title, out)?;
    write_bytes(b"</a> <small>", out)
}

/// Writes what came of a state, in short.
fn write_outcome_word<O: Write>(outcome: Outcome, tally: Tally, out: &mut O) -> io::Result<()>
    ensures written { OnOk result (Appends (O.contents out.old) (O.contents out.new) (outcome_word outcome tally)) }
    ensures cut { OnErr result (AppendsBeginning (O.contents out.old) (O.contents out.new) (outcome_word outcome tally)) }
{
    match outcome {
        Outcome::Begun => write_bytes(b" begun", out),
        Outcome::Changed => write_tally(tally, out),
        Outcome::Same => write_bytes(b" unchanged", out),
        Outcome::Refused(_) => write_bytes(b" <em class=\"r\">refused</em>", out),
    }
}

/// Writes the numbers of nodes added, updated and removed, and whether the focus moved.
fn write_tally<O: Write>(tally: Tally, out: &mut O) -> io::Result<()>
    ensures written { OnOk result (Appends (O.contents out.old) (O.contents out.new) (tally_text tally)) }
    ensures cut { OnErr result (AppendsBeginning (O.contents out.old) (O.contents out.new) (tally_text tally)) }
{
    write_count("a", "added", tally.added, out)?;
    write_count("u", "updated", tally.updated, out)?;
    write_count("r", "removed", tally.removed, out)?;
    write_count("f", "focus", tally.moved, out)
}

/// Writes a count that isn't 0.
fn write_count<O: Write>(class: &str, what: &str, count: u64, out: &mut O) -> io::Result<()>
    ensures written { OnOk result (Appends (O.contents out.old) (O.contents out.new) (count_text class.now what.now count)) }
    ensures cut { OnErr result (AppendsBeginning (O.contents out.old) (O.contents out.new) (count_text class.now what.now count)) }
{
    if count == 0 {
        return Ok(());
    }
    write_some(class, what, count, out)
}

/// Writes a count.
fn write_some<O: Write>(class: &str, what: &str, count: u64, out: &mut O) -> io::Result<()>
    ensures written { OnOk result (Appends (O.contents out.old) (O.contents out.new) (some_text class.now what.now count)) }
    ensures cut { OnErr result (AppendsBeginning (O.contents out.old) (O.contents out.new) (some_text class.now what.now count)) }
{
    begin_em(class, out)?;
    write_number(count, out)?;
    write_bytes(b" ", out)?;
    write_plain(what, out)?;
    write_bytes(b"</em>", out)
}

/// Begins a mark of this class.
fn begin_em<O: Write>(class: &str, out: &mut O) -> io::Result<()>
    ensures written { OnOk result (Appends (O.contents out.old) (O.contents out.new) (em_begun class.now)) }
    ensures cut { OnErr result (AppendsBeginning (O.contents out.old) (O.contents out.new) (em_begun class.now)) }
{
    write_bytes(b" <em class=\"", out)?;
    write_plain(class, out)?;
    write_bytes(b"\">", out)
}
