// Data types: their codes and the sizes of their elements.
#![tactic(auto, unfolding(cdf::specs::Step::bind, cdf::specs::Step::test, crate::specs::Types::data_type))]

ghost use Rattle.std.specs.Prelude.{◌≡◌, ◌≤◌};
ghost use Rattle.cdf.specs.Inner.Answers.{Reads};
ghost use Rattle.items.specs.Types.{size_of, data_type};
ghost use Rattle.items.specs.Inner.DataTypes.{code_of, Decodes};

use cdf::place::Place;
use cdf::refusal::Refusal;
use cdf::step::Step;
use cdf::word::parse_non_neg;

#[derive(Clone, Copy, Debug, PartialEq, Eq, Hash)]
pub enum DataType {
    // byte, signed
    I8,
    // char
    U8,
    // short
    I16,
    // int
    I32,
    // float
    F32,
    // double
    F64,
}

// A code that no type has.
#[derive(Clone, Copy, Debug, PartialEq, Eq, Hash)]
pub struct UnknownCode(pub u64);

impl DataType {
    pub const CODE_I8: u8 = 1;

    pub const CODE_U8: u8 = 2;

    pub const CODE_I16: u8 = 3;

    pub const CODE_I32: u8 = 4;

    pub const CODE_F32: u8 = 5;

    pub const CODE_F64: u8 = 6;

    pub const SIZE_I8: u64 = 1;

    pub const SIZE_U8: u64 = 1;

    pub const SIZE_I16: u64 = 2;

    pub const SIZE_I32: u64 = 4;

    pub const SIZE_F32: u64 = 4;

    pub const SIZE_F64: u64 = 8;

    // The number that stands for the type in a file.
    pub fn code(self) -> u8
        ensures { result ≡ code_of self }
    {
        match self {
            DataType::I8 => DataType::CODE_I8,
            DataType::U8 => DataType::CODE_U8,
            DataType::I16 => DataType::CODE_I16,
            DataType::I32 => DataType::CODE_I32,
            DataType::F32 => DataType::CODE_F32,
            DataType::F64 => DataType::CODE_F64,
        }
    }

    // The bytes of an element.
    pub fn size_of(self) -> u64
        ensures { result ≡ size_of (code_of self) }
    {
        match self {
            DataType::I8 => DataType::SIZE_I8,
            DataType::U8 => DataType::SIZE_U8,
            DataType::I16 => DataType::SIZE_I16,
            DataType::I32 => DataType::SIZE_I32,
            DataType::F32 => DataType::SIZE_F32,
            DataType::F64 => DataType::SIZE_F64,
        }
    }

    // The type of a code.
    pub fn of_code(code: u64) -> DataType
        requires { (1 ≤ code) × (code ≤ 6) }
        ensures { code_of result ≡ code }
    {
        match code {
            1 => DataType::I8,
            2 => DataType::U8,
            3 => DataType::I16,
            4 => DataType::I32,
            5 => DataType::F32,
            _ => DataType::F64,
        }
    }
}

// The type of any code, or that none has it.
impl TryFrom<u64> for DataType {
    type Error = UnknownCode;

    ghost try_from_gives = { Decodes };

    fn try_from(code: u64) -> Result<DataType, UnknownCode> {
        match code {
            1 => Ok(DataType::I8),
            2 => Ok(DataType::U8),
            3 => Ok(DataType::I16),
            4 => Ok(DataType::I32),
            5 => Ok(DataType::F32),
            6 => Ok(DataType::F64),
            _ => Err(UnknownCode(code)),
        }
    }
}

// The type that a word is the code of.
pub fn parse_data_type(place: Place) -> Step<DataType>
    ensures { Reads code_of place.entry (data_type 6) result }
{
    let (code, next) = parse_non_neg(place)?;
    match DataType::try_from(code as u64) {
        Ok(kind) => Ok((kind, next)),
        Err(_) => Err(place.refuse(Refusal::TypeCode)),
    }
}
