//! Laws of calls at both ends of an iterator.
ghost use Rattle.model.specs.MixtureExamples.{ThreeAreTaken};
ghost use Rattle.model.specs.Mixtures.{MixturesAreTaken};

/// If each call takes the first or the last item that is left, then, however calls at both ends are mixed, the items
/// from the front, the items still left, and the reversed items from the back together are the list.
pub fn mixtures_are_taken<S, A, B>()
    ensures { MixturesAreTaken S A B }
{}

/// Calls on a list of three items.
pub fn three_are_taken()
    ensures { ThreeAreTaken }
{}
