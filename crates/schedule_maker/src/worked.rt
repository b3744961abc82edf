//! Worked schedules.

ghost use Rattle.schedule_maker.specs.Worked.{HasNoTurns, HasThreeTurns, HasItsPauses};

/// The lines of short schedules, and of turns with a pause and with a restart, as they were worked out without the definitions.
pub fn worked_schedules()
    ensures none { HasNoTurns }
    ensures three { HasThreeTurns }
    ensures pauses { HasItsPauses }
{}
