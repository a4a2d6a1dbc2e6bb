// The kinds of types and what the numbers of a record refer to ("Type Encoding" of the kernel's
// document).
ghost use Rattle.std.specs.Prelude.{◌≡◌, ◌<◌, ◌^◌};

/// The kind of a type, numbered 1 to 19 in this order in the file (`BTF_KIND_*`).
#[derive(Clone, Copy, Debug, PartialEq, Eq)]
pub enum Kind {
    /// A whole number.
    Int,
    /// A pointer.
    Ptr,
    /// An array of one type.
    Array,
    /// A struct with its members.
    Struct,
    /// A union with its members.
    Union,
    /// Named values of up to 32 bits.
    Enum,
    /// A struct or union that is declared and not defined.
    Fwd,
    /// Another name of a type.
    Typedef,
    /// A `volatile` type.
    Volatile,
    /// A `const` type.
    Const,
    /// A `restrict` type.
    Restrict,
    /// A function.
    Func,
    /// A function's parameters and result.
    FuncProto,
    /// A variable.
    Var,
    /// The variables of a section.
    Datasec,
    /// A floating-point number.
    Float,
    /// A tag of a declaration.
    DeclTag,
    /// A tag of a type.
    TypeTag,
    /// Named values of up to 64 bits.
    Enum64,
}

/// What a number of a record refers to.
#[derive(Clone, Copy, Debug, PartialEq, Eq)]
pub enum Role {
    /// A name, by its offset in the strings.
    ToName,
    /// A type, by its number.
    ToType,
    /// Nothing: a size, a place or a value.
    Plain,
}

impl Kind {
    ghost use Rattle.kc_btf.specs.Kind.{kind_of, following, is_compound};
    ghost use Rattle.kc_btf.specs.Role.{rest_role, role_of};

    // The kind with a number.
    #[inline(always)]
    pub(crate) fn from_number(number: u32) -> Option<Kind>
        ensures { result ≡ kind_of number }
    {
        match number {
            1 => Some(Kind::Int),
            2 => Some(Kind::Ptr),
            3 => Some(Kind::Array),
            4 => Some(Kind::Struct),
            5 => Some(Kind::Union),
            6 => Some(Kind::Enum),
            7 => Some(Kind::Fwd),
            8 => Some(Kind::Typedef),
            9 => Some(Kind::Volatile),
            10 => Some(Kind::Const),
            11 => Some(Kind::Restrict),
            12 => Some(Kind::Func),
            13 => Some(Kind::FuncProto),
            14 => Some(Kind::Var),
            15 => Some(Kind::Datasec),
            16 => Some(Kind::Float),
            17 => Some(Kind::DeclTag),
            18 => Some(Kind::TypeTag),
            19 => Some(Kind::Enum64),
            _ => None,
        }
    }

    // How many numbers of 32 bits stand behind a record that counts `vlen` items.
    #[inline(always)]
    pub(crate) fn following(self, vlen: u16) -> usize
        ensures { result ≡ following self vlen }
    {
        let vlen = usize::from(vlen);
        match self {
            Kind::Int | Kind::Var | Kind::DeclTag => 1,
            Kind::Array => 3,
            Kind::Enum | Kind::FuncProto => 2 * vlen,
            Kind::Struct | Kind::Union | Kind::Datasec | Kind::Enum64 => 3 * vlen,
            _ => 0,
        }
    }

    // What a record's size or type refers to.
    #[inline(always)]
    pub(crate) fn rest_role(self) -> Role
        ensures { result ≡ rest_role self }
    {
        match self {
            Kind::Int
            | Kind::Array
            | Kind::Struct
            | Kind::Union
            | Kind::Enum
            | Kind::Fwd
            | Kind::Datasec
            | Kind::Float
            | Kind::Enum64 => Role::Plain,
            _ => Role::ToType,
        }
    }

    // What the number at an index behind a record refers to.
    pub(crate) fn role_of(self, index: usize) -> Role
        ensures { result ≡ role_of self index }
    {
        match self {
            Kind::Array if index < 2 => Role::ToType,
            Kind::Struct | Kind::Union if index % 3 == 0 => Role::ToName,
            Kind::Struct | Kind::Union if index % 3 == 1 => Role::ToType,
            Kind::Enum if index % 2 == 0 => Role::ToName,
            Kind::Enum64 if index % 3 == 0 => Role::ToName,
            Kind::FuncProto if index % 2 == 0 => Role::ToName,
            Kind::FuncProto => Role::ToType,
            Kind::Datasec if index % 3 == 0 => Role::ToType,
            _ => Role::Plain,
        }
    }

    /// Whether the kind has members: a struct or a union.
    pub fn is_compound(self) -> bool
        ensures { result ≡ is_compound self }
    {
        matches!(self, Kind::Struct | Kind::Union)
    }
}
