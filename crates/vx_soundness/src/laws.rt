//! The theorem. The function does nothing: its clause is the law.

ghost use Rattle.vx_soundness.specs.Laws.{AcceptedMeans};

/// Whoever made it, a certificate of any kind that is accepted over a lawful feed asserts what its
/// kind means, for any number of days and window: the figure is the formula's exact value over the
/// quotes then standing, rounded, and no other one is; it lies between the printed ends; and where a
/// tick or an opening is answered no refusal holds.
pub fn accepted_means()
    ensures { AcceptedMeans }
{}
