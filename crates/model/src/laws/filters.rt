//! Laws of a filter's answers.
ghost use Rattle.model.specs.FilterLaws.{OrderIsByExclusion};

/// Answers are ordered by how much they exclude.
pub fn order_is_by_exclusion()
    ensures { OrderIsByExclusion }
{}
