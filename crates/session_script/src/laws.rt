//! Laws of the grammar.

ghost use Rattle.std.specs.Prelude.{◌≡◌, ℕ, List};
ghost use Rattle.session_script.specs.Fault.{IsLineFault};
ghost use Rattle.session_script.specs.Line.{line_of, HasSpelling};
ghost use Rattle.session_script.specs.declared.event.Event.{Event};
ghost use Rattle.text_fields.specs.declared.line_fault.LineFault.{LineFault};

/// No two events have one line.
pub fn lines_are_injective()
    ensures { (e f : Event) → HasSpelling e → HasSpelling f → line_of e ≡ line_of f → e ≡ f }
{}

/// The line of an event has no fault.
pub fn lines_have_no_fault()
    ensures { (event : Event) → HasSpelling event → (fault : LineFault)
        → IsLineFault fault (line_of event) → ⊥ }
{}

/// No line has two faults.
pub fn faults_are_single()
    ensures { (line : List ℕ) (f g : LineFault) → IsLineFault f line → IsLineFault g line → f ≡ g }
{}
