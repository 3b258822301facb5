//! What is told of a frame, piece by piece.

/// How a line says a thing.
#[derive(Clone, Copy)]
pub(crate) enum How {
    /// As it stands.
    Alone,
    /// Behind a space.
    Behind,
    /// Behind a space, where names are asked for.
    Asked,
    /// Behind a comma, where names are asked for.
    FurtherAsked,
    /// Behind its name, with a space before each.
    Under,
    /// Not at all.
    Nowhere,
}

/// A thing that is said.
#[derive(Clone, Copy)]
pub(crate) enum Value<'a> {
    /// A text.
    Word(&'a str),
    /// A number in decimal.
    Number(u64),
    /// A response code, in three hexadecimal digits or more.
    Code(u32),
    /// Bytes in hexadecimal.
    Bytes(&'a [u8]),
    /// None.
    Null,
}

/// What an object of JSON has members or entries in.
#[derive(Clone, Copy)]
pub(crate) enum Shape {
    /// An object.
    Object,
    /// A list.
    List,
}

/// A piece of what is told.
#[derive(Clone, Copy)]
pub(crate) enum Piece<'a> {
    /// A thing under a name, or an entry of a list without one, and how a line says it.
    Says(How, Option<&'a str>, Value<'a>),
    /// A thing that a line alone says.
    InLine(How, Value<'a>),
    /// That this begins, under a name or as an entry, which no line says.
    Opens(Option<&'a str>, Shape),
    /// That this ends.
    Closes(Shape),
}

/// The end of a line.
pub(crate) static LINE_END: Piece<'static> = Piece::InLine(How::Alone, Value::Word("\n"));

/// The end of a list.
pub(crate) static LIST_END: Piece<'static> = Piece::Closes(Shape::List);

/// The begin of the list of a structure's fields, or of a buffer's.
pub(crate) static FIELDS: Piece<'static> = Piece::Opens(Some("fields"), Shape::List);

/// A thing under a name, as `says!(Under "size" Number 12)`.
macro_rules! says {
    ($how:ident $name:literal $kind:ident $value:expr) => {
        $crate::piece::Piece::Says(
            $crate::piece::How::$how,
            Some($name),
            $crate::piece::Value::$kind($value),
        )
    };
}

/// A thing that a line alone says, as `in_line!(Alone Word "packet")`.
macro_rules! in_line {
    ($how:ident $kind:ident $value:expr) => {
        $crate::piece::Piece::InLine(
            $crate::piece::How::$how,
            $crate::piece::Value::$kind($value),
        )
    };
}

pub(crate) use in_line;
pub(crate) use says;
