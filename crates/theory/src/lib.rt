// Definitions and laws: semirings and sums, weights of trees, bisimulation, collapse and shrink. Of code, the two kinds of direction and the
// two of arithmetic alone.

#![tactic(auto)]

ghost use Rattle.std.specs.Prelude.{◌≡◌, ℕ};
ghost use Rattle.theory.specs.Arithmetic.{ArithmeticFor, arithmetic_number, arithmetic_of};
ghost use Rattle.theory.specs.Direction.{DirectionFor, direction, other};

// What the codes of a table mean, and how they are summed and multiplied.
#[derive(Clone, Copy, Debug, PartialEq, Eq)]
pub enum Arithmetic {
    // numbers modulo 2^32
    Modular,
    // whole numbers and nothing: the sum is the greater, the product the sum
    MaxPlus,
}

// The number of no arithmetic: above 1.
#[derive(Clone, Copy, Debug, PartialEq, Eq)]
pub struct NoArithmetic(pub u32);

impl TryFrom<u32> for Arithmetic {
    type Error = NoArithmetic;

    ghost try_from_gives = { ArithmeticFor };

    fn try_from(number: u32) -> Result<Self, NoArithmetic> {
        match number {
            0 => Ok(Arithmetic::Modular),
            1 => Ok(Arithmetic::MaxPlus),
            _ => Err(NoArithmetic(number)),
        }
    }
}

impl Arithmetic {
    // Its number in a table.
    pub fn number(self) -> u32
        ensures { result ≡ arithmetic_number self }
    {
        match self {
            Arithmetic::Modular => 0,
            Arithmetic::MaxPlus => 1,
        }
    }
}

// What a function takes that needs an arithmetic: one of the two, or a number, of which 0 is modular and every other max and plus.
pub trait IntoArithmetic {
    // the number by which the definitions name it
    ghost number: { Self → ℕ };

    fn into_arithmetic(self) -> Arithmetic
        ensures { result ≡ arithmetic_of (number self) };
}

impl IntoArithmetic for Arithmetic {
    ghost number = { arithmetic_number };

    fn into_arithmetic(self) -> Arithmetic {
        self
    }
}

impl IntoArithmetic for u32 {
    ghost number = { λ number. number };

    fn into_arithmetic(self) -> Arithmetic {
        match self {
            0 => Arithmetic::Modular,
            _ => Arithmetic::MaxPlus,
        }
    }
}

// Backward, states are told apart by the transitions into them; forward, by those in which they are a child.
#[derive(Clone, Copy, Debug, PartialEq, Eq)]
pub enum Direction {
    Backward,
    Forward,
}

// The number of no direction: above 1.
#[derive(Clone, Copy, Debug, PartialEq, Eq)]
pub struct NoDirection(pub u32);

impl TryFrom<u32> for Direction {
    type Error = NoDirection;

    ghost try_from_gives = { DirectionFor };

    fn try_from(number: u32) -> Result<Self, NoDirection> {
        match number {
            0 => Ok(Direction::Backward),
            1 => Ok(Direction::Forward),
            _ => Err(NoDirection(number)),
        }
    }
}

impl Direction {
    // The other of the two.
    pub fn other(self) -> Direction
        ensures { result ≡ other self }
    {
        match self {
            Direction::Backward => Direction::Forward,
            Direction::Forward => Direction::Backward,
        }
    }
}

// What a function takes that needs a direction: one of the two, or a number, of which 0 is backward and every other forward.
pub trait IntoDirection {
    ghost use Rattle.theory.specs.declared.Direction.{Direction};

    ghost side: { Self → Direction };

    fn into_direction(self) -> Direction
        ensures { result ≡ side self };
}

impl IntoDirection for Direction {
    ghost side = { λ direction. direction };

    fn into_direction(self) -> Direction {
        self
    }
}

impl IntoDirection for u32 {
    ghost side = { direction };

    fn into_direction(self) -> Direction {
        match self {
            0 => Direction::Backward,
            _ => Direction::Forward,
        }
    }
}
