//! Laws of what the commands write. Each function does nothing: its clause is the law.

ghost use Rattle.vx_cli.specs.Accepted.{ReplayIsAccepted, SettleIsAccepted};
ghost use Rattle.vx_cli.specs.Laws.{CheckIsOne, DrillAnswersEveryTick, DrillIsOne, ReplayIsOne, SettleIsOne};

/// What `check` answers, and where its run ends, is a function of the feed and the certificates.
pub fn check_is_one()
    ensures { CheckIsOne }
{}

/// What `replay` writes, and where its run ends, is a function of the feed.
pub fn replay_is_one()
    ensures { ReplayIsOne }
{}

/// What `settle` writes, and where its run ends, is a function of the feed and the positions.
pub fn settle_is_one()
    ensures { SettleIsOne }
{}

/// What `drill` writes is a function of the sample feed's number and of its ticks.
pub fn drill_is_one()
    ensures { DrillIsOne }
{}

/// `drill` counts as many answers as ticks were asked for.
pub fn drill_answers_every_tick()
    ensures { DrillAnswersEveryTick }
{}

/// `check` over the same feed says yes to each certificate that a run of `replay` wrote, where they are no more
/// than it reads, and does nothing else.
pub fn replay_is_accepted()
    ensures { ReplayIsAccepted }
{}

/// `check` over the same feed says yes to the certificate that a run of `settle` wrote, and does nothing else.
pub fn settle_is_accepted()
    ensures { SettleIsAccepted }
{}
