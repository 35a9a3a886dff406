// What may be wrong with a label line, layer by layer.
ghost use Rattle.std.specs.Prelude.{◌≡◌};
ghost use Rattle.label_lines.specs.Faults.{field_numbers, line_numbers};
ghost use Rattle.label_lines.specs.declared.faults.LineFault.TheVariants.{Field};

use lines::records::Fault;

// Where in a line a fault is: the number of a field, and a place.
#[derive(Clone, Copy, PartialEq, Eq, Debug)]
pub struct Spot {
    pub field: u32,
    pub place: u32,
}

// A field's fault.
#[derive(Clone, Copy, PartialEq, Eq, Debug)]
pub enum FieldFault {
    Empty(Spot),
    NoDigit(Spot),
    TooLarge(Spot),
}

// The fault's four numbers.
impl From<FieldFault> for Fault {
    ghost from_gives = { λ e f. f ≡ field_numbers e };

    fn from(fault: FieldFault) -> Fault {
        let (number, spot) = match fault {
            FieldFault::Empty(spot) => (1, spot),
            FieldFault::NoDigit(spot) => (2, spot),
            FieldFault::TooLarge(spot) => (3, spot),
        };
        Fault {
            number,
            layer: 1,
            field: spot.field,
            place: spot.place,
        }
    }
}

// A line's fault: that of one of its fields, or its own.
#[derive(Clone, Copy, PartialEq, Eq, Debug)]
pub enum LineFault {
    Field(FieldFault),
    TooLong,
    Missing(Spot),
    FourthComma { place: u32 },
}

// The fault's four numbers; a field's fault keeps its own.
impl From<LineFault> for Fault {
    ghost from_gives = { λ e f. f ≡ line_numbers e };

    fn from(fault: LineFault) -> Fault {
        let (field, place) = match fault {
            LineFault::Field(fault) => return Fault::from(fault),
            LineFault::TooLong => (0, 255),
            LineFault::Missing(spot) => (spot.field, spot.place),
            LineFault::FourthComma { place } => (5, place),
        };
        Fault {
            number: 4,
            layer: 2,
            field,
            place,
        }
    }
}

impl From<FieldFault> for LineFault {
    ghost from_gives = { λ e f. f ≡ Field e };

    fn from(fault: FieldFault) -> LineFault {
        LineFault::Field(fault)
    }
}
