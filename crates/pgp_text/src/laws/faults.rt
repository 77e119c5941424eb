//! Faults of lines are written as they were told.
#![tactic(auto)]

ghost use Rattle.std.specs.Prelude.{◌≡◌, IfSome};
ghost use Rattle.pgp_ids.specs.declared.text_fault.TextFault.{TextFault};
ghost use Rattle.pgp_lines.specs.LineFault.{line_fault_of};
ghost use Rattle.pgp_text.specs.LineRefusal.{refused_data};
ghost use Rattle.pgp_text.specs.declared.reply.line_refusal.LineRefusal.TheVariants.{Line};
ghost use Rattle.pgp_text.specs.Reply.{line_fault_data};

/// What is written of a line's fault is what is written of the fault that was told of it.
pub fn faults_are_written_as_read()
    ensures { (fault : TextFault)
        → IfSome (line_fault_of fault) (λ f. line_fault_data f ≡ refused_data (Line fault)) }
{}
