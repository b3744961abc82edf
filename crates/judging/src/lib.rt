//! A pass over a trace that judges a file, and what it gives: where the trace is broken for the file, as the definition says.
#![tactic(auto)]

ghost use Rattle.std.specs.Prelude.{◌≡◌, ℕ, Some, None, List};
ghost use Rattle.time_line.specs.declared.entry.Entry.{Entry};
ghost use Rattle.time_line.specs.Verdicts.{apart, acting, one_order, once, shown, fresh, Break, IsSafeFor};
ghost use Rattle.judging.specs.Audit.{AuditsJudge};
ghost use Rattle.judging.specs.Dealt.{DealtJudge, dealt_to};
ghost use Rattle.judging.specs.Laws.{PassesJudge, TimesStandFirst};
ghost use Rattle.judging.specs.Pass.{judged};
ghost use Rattle.judging.specs.Samples.{two_hold, goes_well, shows_another, acts_late, skips, stands_twice, ends_early, told_late, two_files, of_second};

/// Where the times stand first, if anywhere, the pass gives the verdict of the definition: where a front of the trace breaks a clause
/// first, or that none does. Then the trace is safe for the file.
pub fn passes_judge()
    ensures verdict { PassesJudge }
    ensures safe { (file : ℕ) (entries : List Entry) → TimesStandFirst entries →
        judged file entries ≡ None → IsSafeFor file entries }
{}

/// The least break that the pass finds in any reported file is where the trace is broken; where it finds none the trace is safe.
pub fn audits_judge()
    ensures { AuditsJudge }
{}

/// What is dealt to a file gives its verdict: the entries of the file itself, and those by which nodes start, stop or set their clocks.
pub fn dealt_entries_judge()
    ensures { DealtJudge }
{}

/// Traces of each kind are judged as they should be.
pub fn samples_are_judged()
    ensures good { judged 1 goes_well ≡ None }
    ensures two { judged 1 two_hold ≡ Some (record { clause = apart; entry = 6 }) }
    ensures late { judged 1 acts_late ≡ Some (record { clause = acting; entry = 6 }) }
    ensures skipped { judged 1 skips ≡ Some (record { clause = one_order; entry = 6 }) }
    ensures twice { judged 1 stands_twice ≡ Some (record { clause = once; entry = 7 }) }
    ensures other { judged 1 shows_another ≡ Some (record { clause = shown; entry = 8 }) }
    ensures early { judged 1 ends_early ≡ Some (record { clause = fresh; entry = 5 }) }
    ensures told { judged 1 told_late ≡ Some (record { clause = apart; entry = 8 }) }
    ensures second { dealt_to 2 two_files ≡ of_second }
{}
