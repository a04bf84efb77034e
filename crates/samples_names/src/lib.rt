// The calls, part by part, with their names, and which call a number is. tools/calls writes this file from include/calls.list.
#![tactic(auto)]

ghost use Rattle.std.specs.Prelude.{◌≡◌, ◌<◌};
ghost use Rattle.samples_names.specs.Numbers.{Decodes, number_of};

use std::fmt;

// How many calls there are. Their numbers are those below.
pub const CALLS: u8 = 50;

// Tables.
#[derive(Clone, Copy, PartialEq, Eq)]
pub enum TablesCall {
    ReadTable,
    FillFacts,
    CheckTable,
}

impl fmt::Display for TablesCall {
    fn fmt<W: fmt::Write>(&self, f: &mut fmt::Formatter<W>) -> fmt::Result {
        f.write_str(match self {
            TablesCall::ReadTable => "read_table",
            TablesCall::FillFacts => "fill_facts",
            TablesCall::CheckTable => "check_table",
        })
    }
}

// Questions about types.
#[derive(Clone, Copy, PartialEq, Eq)]
pub enum TypesCall {
    FactsOf,
    SameType,
    IsUnit,
    IsEmpty,
    TypeAsSum,
    TypeAsProduct,
    PadLeft,
    PadRight,
}

impl fmt::Display for TypesCall {
    fn fmt<W: fmt::Write>(&self, f: &mut fmt::Formatter<W>) -> fmt::Result {
        f.write_str(match self {
            TypesCall::FactsOf => "facts_of",
            TypesCall::SameType => "same_type",
            TypesCall::IsUnit => "is_unit",
            TypesCall::IsEmpty => "is_empty",
            TypesCall::TypeAsSum => "type_as_sum",
            TypesCall::TypeAsProduct => "type_as_product",
            TypesCall::PadLeft => "pad_left",
            TypesCall::PadRight => "pad_right",
        })
    }
}

// Word types, buffer types and the hash state's type.
#[derive(Clone, Copy, PartialEq, Eq)]
pub enum WordTypesCall {
    AsWord,
    WordWidth,
    BufferWidth,
    IsBuffer8,
    IsCtx8,
}

impl fmt::Display for WordTypesCall {
    fn fmt<W: fmt::Write>(&self, f: &mut fmt::Formatter<W>) -> fmt::Result {
        f.write_str(match self {
            WordTypesCall::AsWord => "as_word",
            WordTypesCall::WordWidth => "word_width",
            WordTypesCall::BufferWidth => "buffer_width",
            WordTypesCall::IsBuffer8 => "is_buffer8",
            WordTypesCall::IsCtx8 => "is_ctx8",
        })
    }
}

// Views of a record.
#[derive(Clone, Copy, PartialEq, Eq)]
pub enum ViewsCall {
    AsLeft,
    AsRight,
    AsProduct,
}

impl fmt::Display for ViewsCall {
    fn fmt<W: fmt::Write>(&self, f: &mut fmt::Formatter<W>) -> fmt::Result {
        f.write_str(match self {
            ViewsCall::AsLeft => "as_left",
            ViewsCall::AsRight => "as_right",
            ViewsCall::AsProduct => "as_product",
        })
    }
}

// Comparison.
#[derive(Clone, Copy, PartialEq, Eq)]
pub enum ComparingCall {
    Equal,
    Compare,
}

impl fmt::Display for ComparingCall {
    fn fmt<W: fmt::Write>(&self, f: &mut fmt::Formatter<W>) -> fmt::Result {
        f.write_str(match self {
            ComparingCall::Equal => "equal",
            ComparingCall::Compare => "compare",
        })
    }
}

// Lengths.
#[derive(Clone, Copy, PartialEq, Eq)]
pub enum LengthsCall {
    CompactLen,
    PaddedLen,
}

impl fmt::Display for LengthsCall {
    fn fmt<W: fmt::Write>(&self, f: &mut fmt::Formatter<W>) -> fmt::Result {
        f.write_str(match self {
            LengthsCall::CompactLen => "compact_len",
            LengthsCall::PaddedLen => "padded_len",
        })
    }
}

// Constructors.
#[derive(Clone, Copy, PartialEq, Eq)]
pub enum ConstructorsCall {
    Unit,
    Left,
    Right,
    Product,
    None,
    Some,
    Zero,
}

impl fmt::Display for ConstructorsCall {
    fn fmt<W: fmt::Write>(&self, f: &mut fmt::Formatter<W>) -> fmt::Result {
        f.write_str(match self {
            ConstructorsCall::Unit => "unit",
            ConstructorsCall::Left => "left",
            ConstructorsCall::Right => "right",
            ConstructorsCall::Product => "product",
            ConstructorsCall::None => "none",
            ConstructorsCall::Some => "some",
            ConstructorsCall::Zero => "zero",
        })
    }
}

// Words.
#[derive(Clone, Copy, PartialEq, Eq)]
pub enum WordsCall {
    U1,
    U2,
    U4,
    U8,
    U16,
    U32,
    U64,
    U128,
    U256,
    U512,
    FromByteArray,
}

impl fmt::Display for WordsCall {
    fn fmt<W: fmt::Write>(&self, f: &mut fmt::Formatter<W>) -> fmt::Result {
        f.write_str(match self {
            WordsCall::U1 => "u1",
            WordsCall::U2 => "u2",
            WordsCall::U4 => "u4",
            WordsCall::U8 => "u8",
            WordsCall::U16 => "u16",
            WordsCall::U32 => "u32",
            WordsCall::U64 => "u64",
            WordsCall::U128 => "u128",
            WordsCall::U256 => "u256",
            WordsCall::U512 => "u512",
            WordsCall::FromByteArray => "from_byte_array",
        })
    }
}

// Words joined and read.
#[derive(Clone, Copy, PartialEq, Eq)]
pub enum JoinsCall {
    WordProduct,
    WordFromBits,
}

impl fmt::Display for JoinsCall {
    fn fmt<W: fmt::Write>(&self, f: &mut fmt::Formatter<W>) -> fmt::Result {
        f.write_str(match self {
            JoinsCall::WordProduct => "word_product",
            JoinsCall::WordFromBits => "word_from_bits",
        })
    }
}

// Buffers and the hash state.
#[derive(Clone, Copy, PartialEq, Eq)]
pub enum BuffersCall {
    Buffer8TwoNPlusOne,
    Ctx8,
}

impl fmt::Display for BuffersCall {
    fn fmt<W: fmt::Write>(&self, f: &mut fmt::Formatter<W>) -> fmt::Result {
        f.write_str(match self {
            BuffersCall::Buffer8TwoNPlusOne => "buffer8_two_n_plus_one",
            BuffersCall::Ctx8 => "ctx8",
        })
    }
}

// Codecs.
#[derive(Clone, Copy, PartialEq, Eq)]
pub enum CodecsCall {
    FromCompactBits,
    FromPaddedBits,
    ToCompactBits,
    ToPaddedBits,
}

impl fmt::Display for CodecsCall {
    fn fmt<W: fmt::Write>(&self, f: &mut fmt::Formatter<W>) -> fmt::Result {
        f.write_str(match self {
            CodecsCall::FromCompactBits => "from_compact_bits",
            CodecsCall::FromPaddedBits => "from_padded_bits",
            CodecsCall::ToCompactBits => "to_compact_bits",
            CodecsCall::ToPaddedBits => "to_padded_bits",
        })
    }
}

// The cut.
#[derive(Clone, Copy, PartialEq, Eq)]
pub enum CutsCall {
    Prune,
}

impl fmt::Display for CutsCall {
    fn fmt<W: fmt::Write>(&self, f: &mut fmt::Formatter<W>) -> fmt::Result {
        f.write_str(match self {
            CutsCall::Prune => "prune",
        })
    }
}

// A call.
#[derive(Clone, Copy, PartialEq, Eq)]
pub enum Call {
    Tables(TablesCall),
    Types(TypesCall),
    WordTypes(WordTypesCall),
    Views(ViewsCall),
    Comparing(ComparingCall),
    Lengths(LengthsCall),
    Constructors(ConstructorsCall),
    Words(WordsCall),
    Joins(JoinsCall),
    Buffers(BuffersCall),
    Codecs(CodecsCall),
    Cuts(CutsCall),
}

impl fmt::Display for Call {
    fn fmt<W: fmt::Write>(&self, f: &mut fmt::Formatter<W>) -> fmt::Result {
        match self {
            Call::Tables(call) => call.fmt(f),
            Call::Types(call) => call.fmt(f),
            Call::WordTypes(call) => call.fmt(f),
            Call::Views(call) => call.fmt(f),
            Call::Comparing(call) => call.fmt(f),
            Call::Lengths(call) => call.fmt(f),
            Call::Constructors(call) => call.fmt(f),
            Call::Words(call) => call.fmt(f),
            Call::Joins(call) => call.fmt(f),
            Call::Buffers(call) => call.fmt(f),
            Call::Codecs(call) => call.fmt(f),
            Call::Cuts(call) => call.fmt(f),
        }
    }
}

impl Call {
    // The number of a call.
    pub fn number(self) -> u8
        ensures named { result ≡ number_of self }
        ensures below { result < CALLS }
    {
        match self {
            Call::Tables(TablesCall::ReadTable) => 0,
            Call::Tables(TablesCall::FillFacts) => 1,
            Call::Tables(TablesCall::CheckTable) => 2,
            Call::Types(TypesCall::FactsOf) => 3,
            Call::Types(TypesCall::SameType) => 4,
            Call::Types(TypesCall::IsUnit) => 5,
            Call::Types(TypesCall::IsEmpty) => 6,
            Call::Types(TypesCall::TypeAsSum) => 7,
            Call::Types(TypesCall::TypeAsProduct) => 8,
            Call::Types(TypesCall::PadLeft) => 9,
            Call::Types(TypesCall::PadRight) => 10,
            Call::WordTypes(WordTypesCall::AsWord) => 11,
            Call::WordTypes(WordTypesCall::WordWidth) => 12,
            Call::WordTypes(WordTypesCall::BufferWidth) => 13,
            Call::WordTypes(WordTypesCall::IsBuffer8) => 14,
            Call::WordTypes(WordTypesCall::IsCtx8) => 15,
            Call::Views(ViewsCall::AsLeft) => 16,
            Call::Views(ViewsCall::AsRight) => 17,
            Call::Views(ViewsCall::AsProduct) => 18,
            Call::Comparing(ComparingCall::Equal) => 19,
            Call::Comparing(ComparingCall::Compare) => 20,
            Call::Lengths(LengthsCall::CompactLen) => 21,
            Call::Lengths(LengthsCall::PaddedLen) => 22,
            Call::Constructors(ConstructorsCall::Unit) => 23,
            Call::Constructors(ConstructorsCall::Left) => 24,
            Call::Constructors(ConstructorsCall::Right) => 25,
            Call::Constructors(ConstructorsCall::Product) => 26,
            Call::Constructors(ConstructorsCall::None) => 27,
            Call::Constructors(ConstructorsCall::Some) => 28,
            Call::Constructors(ConstructorsCall::Zero) => 29,
            Call::Words(WordsCall::U1) => 30,
            Call::Words(WordsCall::U2) => 31,
            Call::Words(WordsCall::U4) => 32,
            Call::Words(WordsCall::U8) => 33,
            Call::Words(WordsCall::U16) => 34,
            Call::Words(WordsCall::U32) => 35,
            Call::Words(WordsCall::U64) => 36,
            Call::Words(WordsCall::U128) => 37,
            Call::Words(WordsCall::U256) => 38,
            Call::Words(WordsCall::U512) => 39,
            Call::Words(WordsCall::FromByteArray) => 40,
            Call::Joins(JoinsCall::WordProduct) => 41,
            Call::Joins(JoinsCall::WordFromBits) => 42,
            Call::Buffers(BuffersCall::Buffer8TwoNPlusOne) => 43,
            Call::Buffers(BuffersCall::Ctx8) => 44,
            Call::Codecs(CodecsCall::FromCompactBits) => 45,
            Call::Codecs(CodecsCall::FromPaddedBits) => 46,
            Call::Codecs(CodecsCall::ToCompactBits) => 47,
            Call::Codecs(CodecsCall::ToPaddedBits) => 48,
            Call::Cuts(CutsCall::Prune) => 49,
        }
    }
}

// A number that is no call's.
#[derive(Clone, Copy)]
pub struct NoCall(pub u8);

impl TryFrom<u8> for Call {
    type Error = NoCall;

    ghost try_from_gives = { Decodes };

    fn try_from(number: u8) -> Result<Self, NoCall> {
        match number {
            0 => Ok(Call::Tables(TablesCall::ReadTable)),
            1 => Ok(Call::Tables(TablesCall::FillFacts)),
            2 => Ok(Call::Tables(TablesCall::CheckTable)),
            3 => Ok(Call::Types(TypesCall::FactsOf)),
            4 => Ok(Call::Types(TypesCall::SameType)),
            5 => Ok(Call::Types(TypesCall::IsUnit)),
            6 => Ok(Call::Types(TypesCall::IsEmpty)),
            7 => Ok(Call::Types(TypesCall::TypeAsSum)),
            8 => Ok(Call::Types(TypesCall::TypeAsProduct)),
            9 => Ok(Call::Types(TypesCall::PadLeft)),
            10 => Ok(Call::Types(TypesCall::PadRight)),
            11 => Ok(Call::WordTypes(WordTypesCall::AsWord)),
            12 => Ok(Call::WordTypes(WordTypesCall::WordWidth)),
            13 => Ok(Call::WordTypes(WordTypesCall::BufferWidth)),
            14 => Ok(Call::WordTypes(WordTypesCall::IsBuffer8)),
            15 => Ok(Call::WordTypes(WordTypesCall::IsCtx8)),
            16 => Ok(Call::Views(ViewsCall::AsLeft)),
            17 => Ok(Call::Views(ViewsCall::AsRight)),
            18 => Ok(Call::Views(ViewsCall::AsProduct)),
            19 => Ok(Call::Comparing(ComparingCall::Equal)),
            20 => Ok(Call::Comparing(ComparingCall::Compare)),
            21 => Ok(Call::Lengths(LengthsCall::CompactLen)),
            22 => Ok(Call::Lengths(LengthsCall::PaddedLen)),
            23 => Ok(Call::Constructors(ConstructorsCall::Unit)),
            24 => Ok(Call::Constructors(ConstructorsCall::Left)),
            25 => Ok(Call::Constructors(ConstructorsCall::Right)),
            26 => Ok(Call::Constructors(ConstructorsCall::Product)),
            27 => Ok(Call::Constructors(ConstructorsCall::None)),
            28 => Ok(Call::Constructors(ConstructorsCall::Some)),
            29 => Ok(Call::Constructors(ConstructorsCall::Zero)),
            30 => Ok(Call::Words(WordsCall::U1)),
            31 => Ok(Call::Words(WordsCall::U2)),
            32 => Ok(Call::Words(WordsCall::U4)),
            33 => Ok(Call::Words(WordsCall::U8)),
            34 => Ok(Call::Words(WordsCall::U16)),
            35 => Ok(Call::Words(WordsCall::U32)),
            36 => Ok(Call::Words(WordsCall::U64)),
            37 => Ok(Call::Words(WordsCall::U128)),
            38 => Ok(Call::Words(WordsCall::U256)),
            39 => Ok(Call::Words(WordsCall::U512)),
            40 => Ok(Call::Words(WordsCall::FromByteArray)),
            41 => Ok(Call::Joins(JoinsCall::WordProduct)),
            42 => Ok(Call::Joins(JoinsCall::WordFromBits)),
            43 => Ok(Call::Buffers(BuffersCall::Buffer8TwoNPlusOne)),
            44 => Ok(Call::Buffers(BuffersCall::Ctx8)),
            45 => Ok(Call::Codecs(CodecsCall::FromCompactBits)),
            46 => Ok(Call::Codecs(CodecsCall::FromPaddedBits)),
            47 => Ok(Call::Codecs(CodecsCall::ToCompactBits)),
            48 => Ok(Call::Codecs(CodecsCall::ToPaddedBits)),
            49 => Ok(Call::Cuts(CutsCall::Prune)),
            _ => Err(NoCall(number)),
        }
    }
}
