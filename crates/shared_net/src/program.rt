//! Programs of switches.
ghost use Rattle.std.specs.Prelude.{◌≡◌};
ghost use Rattle.p4_ir.specs.Program.{program_of};
ghost use Rattle.shared_net.specs.Shared.{switch_program};

use p4_ir::Program;

/// The program of the switch of this number, given by those of two switches. It is the first, but for literals in which they differ:
/// in their place is the number. What the second one has besides is not looked at.
#[derive(Clone, Copy, Drop)]
pub struct SwitchProgram<'p> {
    pub program: &'p Program,
    pub other: &'p Program,
    pub number: u16,
}

impl<'p> SwitchProgram<'p> {
    /// A program in which no number is left open.
    pub fn of(program: &'p Program) -> SwitchProgram<'p>
        ensures { switch_program result ≡ program_of program.now }
    {
        SwitchProgram {
            program,
            other: program,
            number: 0,
        }
    }
}
