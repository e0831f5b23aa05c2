// The calls, and what each takes.
ghost use Rattle.cases.specs.Call.{Decodes};

#[derive(Clone, Copy)]
pub enum Call {
    Encode,
    Decode,
    Distance,
    SlipWrite,
    SlipRead,
    Line,
    RollFirst,
    ToNew,
    ToOld,
    LevelsRead,
    LevelsWrite,
}

// A byte that stands for no call.
#[derive(Clone, Copy)]
pub struct NoCall(pub u8);

impl TryFrom<u8> for Call {
    type Error = NoCall;

    ghost try_from_gives = { Decodes };

    fn try_from(code: u8) -> Result<Call, NoCall> {
        match code {
            1 => Ok(Call::Encode),
            2 => Ok(Call::Decode),
            3 => Ok(Call::Distance),
            4 => Ok(Call::SlipWrite),
            5 => Ok(Call::SlipRead),
            6 => Ok(Call::Line),
            7 => Ok(Call::RollFirst),
            8 => Ok(Call::ToNew),
            9 => Ok(Call::ToOld),
            10 => Ok(Call::LevelsRead),
            11 => Ok(Call::LevelsWrite),
            _ => Err(NoCall(code)),
        }
    }
}

impl Call {
    pub fn takes_edition(self) -> bool {
        matches!(self, Call::SlipWrite)
    }

    // k and the points.
    pub fn takes_code(self) -> bool {
        matches!(self, Call::Encode | Call::Decode | Call::SlipWrite)
    }

    // m.
    pub fn takes_field(self) -> bool {
        self.takes_code() || matches!(self, Call::LevelsRead | Call::LevelsWrite)
    }

    // r.
    pub fn takes_depth(self) -> bool {
        self.takes_field() || matches!(self, Call::Distance)
    }

    pub fn takes_second(self) -> bool {
        self.takes_code() || matches!(self, Call::Distance)
    }

    pub fn fills_buffer(self) -> bool {
        !matches!(self, Call::Distance | Call::RollFirst)
    }

    pub fn fills_other(self) -> bool {
        matches!(self, Call::Decode | Call::SlipRead)
    }
}
