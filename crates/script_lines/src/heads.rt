//! The line that begins an update.

ghost use Rattle.std.specs.Prelude.{◌<◌, ◌≡◌, Option, Some, OnOk, option_copied, option_map};
ghost use Rattle.std.specs.String.{string_bytes};
ghost use Rattle.schema.specs.UpdateData.{info_data, update_data};
ghost use Rattle.script_lines.specs.HeadMeaning.{field_means, finished, info_of, once_next, takes_text, update_means, value_at};
ghost use Rattle.script_lines.specs.LineReading.{HeadData, head_data, no_head};
ghost use Rattle.script_words.specs.Fields.{each_word, fields_of, one_word};
ghost use Rattle.script_words.specs.Meaning.{Answers, next_as};
ghost use Rattle.script_words.specs.Reading.{unread};
ghost use Rattle.script_words.specs.Texts.{next_text};
ghost use Rattle.script_words.specs.WordValues.{id_of};
ghost use Rattle.script_words.specs.Words.{left};

use schema::{NodeId, TreeId, TreeInfo, TreeUpdate};
use script_words::stops::Stop;
use script_words::words::Words;
use std::alloc::Global;

/// The fields of the line read so far.
#[derive(Drop)]
struct Head {
    focus: Option<NodeId>,
    root: Option<NodeId>,
    toolkit_name: Option<String>,
    toolkit_version: Option<String>,
}

/// Reads `update TREE focus=ID [root=ID] [toolkit="t"] [version="t"]`, from `TREE` on. The fields may be in any order;
/// those of the toolkit are only allowed with `root=`.
pub(crate) fn update_line(alloc: Global, mut words: Words) -> Result<TreeUpdate, Stop>
    ensures { Answers (update_means (unread words.entry)) result (λ u read. update_data read ≡ u) }
{
    let tree_id = words.tree()?;
    let mut head = Head::new();
    head.read_fields(alloc, &mut words)?;
    head.finish(alloc, tree_id)
}

impl Head {
    /// The fields before any is read.
    fn new() -> Head
        ensures { head_data result ≡ no_head }
    {
        Head {
            focus: None,
            root: None,
            toolkit_name: None,
            toolkit_version: None,
        }
    }

    /// Reads fields, up to the end of the line.
    fn read_fields(&mut self, alloc: Global, words: &mut Words) -> Result<(), Stop>
        ensures { Answers (each_word field_means (fields_of takes_text (unread words.old)) (head_data self.old)) result
            (λ head _. head_data self.new ≡ head) }
    {
        while words.rest.is_some() {
            self.read_field(alloc, words)?;
        }
        Ok(())
    }

    /// Reads a field, which wasn't read yet.
    fn read_field(&mut self, alloc: Global, words: &mut Words) -> Result<(), Stop>
        ensures shorter { OnOk result (left (option_copied words.new.rest) < left (option_copied words.old.rest)) }
        ensures means { Answers (one_word field_means (fields_of takes_text (unread words.old)) (head_data self.old)) result
            (λ next _. (head_data self.new ≡ next.0) × (fields_of takes_text (unread words.new) ≡ next.1)) }
    {
        let (name, has_value) = words.field()?;
        if !has_value {
            return Err(Stop::BadLine);
        }
        self.read_value(alloc, name, words)
    }

    /// Reads the value of a field, which wasn't read yet.
    fn read_value(&mut self, alloc: Global, name: &str, words: &mut Words) -> Result<(), Stop>
        ensures shorter { OnOk result (left (option_copied words.new.rest) < left (option_copied words.old.rest)) }
        ensures means { Answers (value_at name.now (unread words.old) (head_data self.old)) result
            (λ read _. (head_data self.new ≡ read.0) × (unread words.new ≡ read.1)) }
    {
        match name {
            "focus" => new_id(words, &mut self.focus),
            "root" => new_id(words, &mut self.root),
            "toolkit" => new_text(alloc, words, &mut self.toolkit_name),
            "version" => new_text(alloc, words, &mut self.toolkit_version),
            _ => Err(Stop::BadLine),
        }
    }

    /// The update of this tree, still without nodes.
    fn finish(self, alloc: Global, tree_id: TreeId) -> Result<TreeUpdate, Stop>
        ensures { Answers (finished tree_id (head_data self)) result (λ u read. update_data read ≡ u) }
    {
        let focus = self.focus.ok_or(Stop::BadLine)?;
        let tree = tree_info(self.root, self.toolkit_name, self.toolkit_version)?;
        Ok(TreeUpdate {
            nodes: Vec::new(alloc),
            tree,
            tree_id,
            focus,
        })
    }
}

/// The tree info; `None` without a root.
fn tree_info(
    root: Option<NodeId>,
    toolkit_name: Option<String>,
    toolkit_version: Option<String>,
) -> Result<Option<TreeInfo>, Stop>
    ensures { (head : HeadData) → head.toolkit ≡ option_map string_bytes toolkit_name
        → head.version ≡ option_map string_bytes toolkit_version
        → Answers (info_of head root) result (λ info read. option_map info_data read ≡ info) }
{
    match root {
        Some(root) => Ok(Some(TreeInfo {
            root,
            toolkit_name,
            toolkit_version,
        })),
        None if toolkit_name.is_some() || toolkit_version.is_some() => Err(Stop::BadLine),
        None => Ok(None),
    }
}

/// Reads the next word as a node's id, if none was read yet.
fn new_id(words: &mut Words, place: &mut Option<NodeId>) -> Result<(), Stop>
    ensures shorter { OnOk result (left (option_copied words.new.rest) < left (option_copied words.old.rest)) }
    ensures means { Answers (once_next place.old (next_as id_of (unread words.old))) result
        (λ read _. (place.new ≡ Some read.0) × (unread words.new ≡ read.1)) }
{
    if place.is_some() {
        return Err(Stop::BadLine);
    }
    *place = Some(words.id()?);
    Ok(())
}

/// Reads the next text, if none was read yet.
fn new_text(alloc: Global, words: &mut Words, place: &mut Option<String>) -> Result<(), Stop>
    ensures shorter { OnOk result (left (option_copied words.new.rest) < left (option_copied words.old.rest)) }
    ensures means { Answers (once_next (option_map string_bytes place.old) (next_text (unread words.old))) result
        (λ read _. (option_map string_bytes place.new ≡ Some read.0) × (unread words.new ≡ read.1)) }
{
    if place.is_some() {
        return Err(Stop::BadLine);
    }
    *place = Some(words.text(alloc)?);
    Ok(())
}
