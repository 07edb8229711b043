//! Laws of what the commands mean.

ghost use Rattle.std.specs.Prelude.{◌≡◌, ◌↔◌, ℕ, List, Ok, Err};
ghost use Rattle.noc_model.specs.Plan.{Plan as PlanValue};
ghost use Rattle.trace_read.specs.declared.entries.Entry.{Entry};
ghost use Rattle.trace_read.specs.Restrict.{of_domain};
ghost use Rattle.vl_tree.specs.Values.{Design};
ghost use Rattle.vl_tree.specs.Spells.{Spells};
ghost use Rattle.vl_tree.specs.Faults.{IsReadFault};
ghost use Rattle.vl_tree.specs.declared.fault.TextFault.{TextFault};
ghost use Rattle.surf_cli.specs.Compiled.{CompiledIsSimulated, CompileThenReplay, CompiledDomainsApart};
ghost use Rattle.surf_cli.specs.Laws.{ReplayIsSimulate, CommandsAgree, AuditedIsolates};
ghost use Rattle.surf_cli.specs.Simulate.{report_text};
ghost use Rattle.surf_cli.specs.TextRead.{text_read};

/// Reports do not interfere: two traces that agree on a domain, whatever else is in them, give this domain equal
/// reports.
pub fn reports_do_not_interfere()
    ensures { (p : PlanValue) (es fs : List Entry) (cycles d : ℕ) → of_domain p d es ≡ of_domain p d fs
        → report_text p es cycles d ≡ report_text p fs cycles d }
{}

/// What the commands read of a text is the design that its bytes spell.
pub fn texts_as_spelled()
    ensures { (bytes : List ℕ) (d : Design) → (text_read bytes ≡ Ok d) ↔ Spells bytes d }
{}

/// What they refuse of it is its first fault of those that reading finds.
pub fn texts_as_refused()
    ensures { (bytes : List ℕ) (fault : TextFault) → (text_read bytes ≡ Err fault) ↔ IsReadFault bytes fault }
{}

/// The replay of a right text is the simulation: `replay` of such a text and `simulate` come to the same end, with the
/// same bytes, for every trace and cycle count.
pub fn replay_is_simulate()
    ensures text { ReplayIsSimulate }
    ensures commands { CommandsAgree }
{}

/// What `compile` writes is the network that is simulated: whatever text it may write for a description, `replay` of
/// that text and `simulate` come to the same end, with the same bytes, for every trace and cycle count. So it is by the
/// words of the command line too, where the text is within its file's limit.
pub fn compiled_is_simulated()
    ensures contents { CompiledIsSimulated }
    ensures words { CompileThenReplay }
{}

/// In what `compile` writes domains don't interfere: in every run of such a text a domain's outputs depend on its own
/// inputs alone.
pub fn compiled_domains_apart()
    ensures { CompiledDomainsApart }
{}

/// A text that an audit passes isolates every domain: where `audit` of a description and a text may end with status 0,
/// the text spells a sound design with the plan's ports in which no domain's outputs depend on another domain's inputs.
pub fn audited_isolates()
    ensures { AuditedIsolates }
{}
