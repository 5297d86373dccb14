// The law over every run of an account, on the contracts of functions that do nothing.
#![tactic(auto)]

ghost use Rattle.history.specs.Law.{EveryRunIsLawful, EveryListIsLawful, EveryEntryRunsOn};
ghost use Rattle.history.specs.Keeping.{EveryRunIsKept};
ghost use Rattle.history.specs.Declines.{DeclinesWorked};
ghost use Rattle.history.specs.Worked.{PartFill, CallWorked, SurchargeWorked, OptionsWorked};

// Of every run, under every margin rule that keeps its laws: the law, and what the books keep.
pub fn law_holds()
    ensures runs { EveryRunIsLawful }
    ensures lists { EveryListIsLawful }
    ensures entries { EveryEntryRunsOn }
    ensures kept { EveryRunIsKept }
{}

// Runs in numbers: an order with a part fill, a mark and a cancellation; a call that stands, is overdue and is lifted; a surcharge; options
// sold, bought back and bought.
pub fn worked_runs()
    ensures part_fill { PartFill }
    ensures call { CallWorked }
    ensures surcharge { SurchargeWorked }
    ensures options { OptionsWorked }
{}

// Entries with one fault or several, each with its decline.
pub fn worked_declines()
    ensures { DeclinesWorked }
{}
