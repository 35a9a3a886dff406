// What may go wrong with an answer.
ghost use Rattle.std.specs.Prelude.{◌≡◌};
ghost use Rattle.answers.specs.Faults.{answer_numbers};
ghost use Rattle.answers.specs.declared.faults.AnswerFault.TheVariants.{Line};

use label_lines::faults::LineFault;
use lines::records::Fault;

// An answer's fault: that of its line, no window, or a buffer that is shorter than the line to write.
#[derive(Clone, Copy, PartialEq, Eq, Debug)]
pub enum AnswerFault {
    Line(LineFault),
    NoWindow,
    ShortBuffer,
}

// The fault's four numbers; a line's fault keeps its own.
impl From<AnswerFault> for Fault {
    ghost from_gives = { λ e f. f ≡ answer_numbers e };

    fn from(fault: AnswerFault) -> Fault {
        let (number, layer) = match fault {
            AnswerFault::Line(fault) => return Fault::from(fault),
            AnswerFault::NoWindow => (5, 3),
            AnswerFault::ShortBuffer => (6, 4),
        };
        Fault {
            number,
            layer,
            field: 0,
            place: 0,
        }
    }
}

impl From<LineFault> for AnswerFault {
    ghost from_gives = { λ e f. f ≡ Line e };

    fn from(fault: LineFault) -> AnswerFault {
        AnswerFault::Line(fault)
    }
}
