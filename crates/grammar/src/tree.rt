// The kinds of what a tree is made of. In the tree's words each is its number, and `try_from` reads it back.
ghost use Rattle.std.specs.Prelude.{◌≡◌};
ghost use Rattle.grammar.specs.Numbers.{number_of_item, number_of_statement, number_of_type, ReadsItem, ReadsStatement, ReadsDeclaration, ReadsType};

use flat::UnknownNumber;

// What an item of an expression is: `And` and `Or` stand between their sides, and `Join` after the right one.
#[derive(Clone, Copy, Debug, PartialEq, Eq, Hash)]
pub enum Item {
    Number = 0,
    Name = 1,
    Element = 2,
    Call = 3,
    Unary = 4,
    Strict = 5,
    And = 6,
    Or = 7,
    Join = 8,
    Truth = 9,
}

// What a statement is: `When` is an `if` with no `else`, `Choose` one with both blocks, `Leave` a `return` with no value, `Give` one with a value,
// `Run` a call.
#[derive(Clone, Copy, Debug, PartialEq, Eq, Hash)]
pub enum Statement {
    Assign = 0,
    Store = 1,
    Choose = 2,
    While = 3,
    Leave = 4,
    Give = 5,
    Emit = 6,
    Run = 7,
    When = 8,
    DeclareInt = 9,
    DeclareBool = 10,
}

// What stands at the top of a program.
#[derive(Clone, Copy, Debug, PartialEq, Eq, Hash)]
pub enum Declaration {
    Array = 0,
    Function = 1,
}

// The type of a parameter or of a result. A function with no result has the number 0 in the type's place.
#[derive(Clone, Copy, Debug, PartialEq, Eq, Hash)]
pub enum ValueType {
    Int = 1,
    Bool = 2,
}

impl TryFrom<u32> for Item {
    type Error = UnknownNumber;

    ghost try_from_gives = { ReadsItem };

    fn try_from(number: u32) -> Result<Self, UnknownNumber> {
        match number {
            0 => Ok(Item::Number),
            1 => Ok(Item::Name),
            2 => Ok(Item::Element),
            3 => Ok(Item::Call),
            4 => Ok(Item::Unary),
            5 => Ok(Item::Strict),
            6 => Ok(Item::And),
            7 => Ok(Item::Or),
            8 => Ok(Item::Join),
            9 => Ok(Item::Truth),
            _ => Err(UnknownNumber(number)),
        }
    }
}

impl TryFrom<u32> for Statement {
    type Error = UnknownNumber;

    ghost try_from_gives = { ReadsStatement };

    fn try_from(number: u32) -> Result<Self, UnknownNumber> {
        match number {
            0 => Ok(Statement::Assign),
            1 => Ok(Statement::Store),
            2 => Ok(Statement::Choose),
            3 => Ok(Statement::While),
            4 => Ok(Statement::Leave),
            5 => Ok(Statement::Give),
            6 => Ok(Statement::Emit),
            7 => Ok(Statement::Run),
            8 => Ok(Statement::When),
            9 => Ok(Statement::DeclareInt),
            10 => Ok(Statement::DeclareBool),
            _ => Err(UnknownNumber(number)),
        }
    }
}

impl TryFrom<u32> for Declaration {
    type Error = UnknownNumber;

    ghost try_from_gives = { ReadsDeclaration };

    fn try_from(number: u32) -> Result<Self, UnknownNumber> {
        match number {
            0 => Ok(Declaration::Array),
            1 => Ok(Declaration::Function),
            _ => Err(UnknownNumber(number)),
        }
    }
}

impl TryFrom<u32> for ValueType {
    type Error = UnknownNumber;

    ghost try_from_gives = { ReadsType };

    fn try_from(number: u32) -> Result<Self, UnknownNumber> {
        match number {
            1 => Ok(ValueType::Int),
            2 => Ok(ValueType::Bool),
            _ => Err(UnknownNumber(number)),
        }
    }
}

impl From<Item> for u32 {
    ghost from_gives = { λ item n. n ≡ number_of_item item };

    fn from(item: Item) -> u32 {
        item as u32
    }
}

impl From<Statement> for u32 {
    ghost from_gives = { λ statement n. n ≡ number_of_statement statement };

    fn from(statement: Statement) -> u32 {
        statement as u32
    }
}

impl From<ValueType> for u32 {
    ghost from_gives = { λ value_type n. n ≡ number_of_type value_type };

    fn from(value_type: ValueType) -> u32 {
        value_type as u32
    }
}
