//! Reading the queries of a script.

ghost use Rattle.model.specs.declared.queries.Query.TheVariants as query;
ghost use Rattle.script_lines.specs.QuestionMeaning.{asked_by_filter, hit_means, last_name, last_name_and_filter, last_place, last_places, moved_means, question_means};
ghost use Rattle.script_words.specs.Meaning.{Gives};
ghost use Rattle.script_words.specs.Reading.{unread};

use model::{At, Move, NamedFilter, NodeName, Query};
use schema::Point;
use script_words::stops::Stop;
use script_words::words::Words;

/// Reads the last words, which name a node.
fn last_name(words: &mut Words) -> Result<NodeName, Stop>
    ensures { Gives (last_name (unread words.old)) result }
{
    let name = words.node_name()?;
    words.end()?;
    Ok(name)
}

/// Reads the last words, which name a node, and optionally a filter.
fn last_name_and_filter(words: &mut Words) -> Result<(NodeName, NamedFilter), Stop>
    ensures { Gives (last_name_and_filter (unread words.old)) result }
{
    let name = words.node_name()?;
    let filter = words.filter()?;
    words.end()?;
    Ok((name, filter))
}

/// The query for a node's filtered children.
fn filtered_children(words: &mut Words) -> Result<Query, Stop>
    ensures { Gives (asked_by_filter query.FilteredChildren (unread words.old)) result }
{
    let (name, filter) = last_name_and_filter(words)?;
    Ok(Query::FilteredChildren(name, filter))
}

/// The query for the filtered siblings after a node.
fn following_filtered(words: &mut Words) -> Result<Query, Stop>
    ensures { Gives (asked_by_filter query.FollowingFiltered (unread words.old)) result }
{
    let (name, filter) = last_name_and_filter(words)?;
    Ok(Query::FollowingFiltered(name, filter))
}

/// The query for the filtered siblings before a node.
fn preceding_filtered(words: &mut Words) -> Result<Query, Stop>
    ensures { Gives (asked_by_filter query.PrecedingFiltered (unread words.old)) result }
{
    let (name, filter) = last_name_and_filter(words)?;
    Ok(Query::PrecedingFiltered(name, filter))
}

/// The query for a node's set.
fn set_query(words: &mut Words) -> Result<Query, Stop>
    ensures { Gives (asked_by_filter query.Set (unread words.old)) result }
{
    let (name, filter) = last_name_and_filter(words)?;
    Ok(Query::Set(name, filter))
}

/// The query for a hit.
fn hit(words: &mut Words) -> Result<Query, Stop>
    ensures { Gives (hit_means (unread words.old)) result }
{
    let name = words.node_name()?;
    let point = words.point()?;
    let filter = words.filter()?;
    words.end()?;
    Ok(Query::Hit(name, point, filter))
}

/// The query for a caret movement.
fn moved(words: &mut Words) -> Result<Query, Stop>
    ensures { Gives (moved_means (unread words.old)) result }
{
    let name = words.node_name()?;
    let at = words.at()?;
    let movement = words.movement()?;
    words.end()?;
    Ok(Query::Move(name, at, movement))
}

/// Reads the last words, which name a node and a position in its text.
fn last_place(words: &mut Words) -> Result<(NodeName, At), Stop>
    ensures { Gives (last_place (unread words.old)) result }
{
    let name = words.node_name()?;
    let at = words.at()?;
    words.end()?;
    Ok((name, at))
}

/// Reads the last words, which name a node and two positions in its text.
fn last_places(words: &mut Words) -> Result<(NodeName, At, At), Stop>
    ensures { Gives (last_places (unread words.old)) result }
{
    let name = words.node_name()?;
    let from = words.at()?;
    let to = words.at()?;
    words.end()?;
    Ok((name, from, to))
}

/// Reads the query that begins with this word, from the next word on.
pub(crate) fn question(word: &str, mut words: Words) -> Result<Query, Stop>
    ensures { Gives (question_means word.now (unread words.entry)) result }
{
    match word {
        "children" => Ok(Query::Children(last_name(&mut words)?)),
        "following" => Ok(Query::FollowingSiblings(last_name(&mut words)?)),
        "preceding" => Ok(Query::PrecedingSiblings(last_name(&mut words)?)),
        "filtered" => filtered_children(&mut words),
        "following_filtered" => following_filtered(&mut words),
        "preceding_filtered" => preceding_filtered(&mut words),
        "set" => set_query(&mut words),
        "hit" => hit(&mut words),
        "focus" => {
            words.end()?;
            Ok(Query::Focus)
        }
        "label" => Ok(Query::Label(last_name(&mut words)?)),
        "value" => Ok(Query::Value(last_name(&mut words)?)),
        "text" => Ok(Query::Text(last_name(&mut words)?)),
        "move" => moved(&mut words),
        "indexes" => {
            let (name, at) = last_place(&mut words)?;
            Ok(Query::Indexes(name, at))
        }
        "between" => {
            let (name, from, to) = last_places(&mut words)?;
            Ok(Query::RangeText(name, from, to))
        }
        _ => Err(Stop::BadLine),
    }
}
