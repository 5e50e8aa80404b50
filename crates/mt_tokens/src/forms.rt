//! What a script has of imports, of exports, and of calls that name a module.
use crate::{Text, Token};
use mt_containers::List;

/// A string that names a module, in a statement or a call.
#[derive(Drop)]
pub struct Named {
    /// What it says.
    pub name: Text,
    /// The string itself.
    pub string: Token,
    /// The place after the statement or the call.
    pub end: u32,
}

/// `n as m` of a list in braces; `n` alone is `n as n`.
#[derive(Clone, Copy)]
pub struct Item {
    /// The name before `as`.
    pub name: Token,
    /// The name after it.
    pub other: Token,
}

/// What a statement takes of a module, beside its default.
#[derive(Drop)]
pub enum Bound {
    /// Nothing by a name.
    Nothing,
    /// The whole module, by one name.
    All(Token),
    /// What a list in braces names.
    Listed(List<Item>),
}

/// An import or an export, by its form.
#[derive(Drop)]
pub enum Form {
    /// `import`, with the name of the default where it has one.
    Import {
        default: Option<Token>,
        bound: Bound,
        named: Named,
    },
    /// `export` of what another module has.
    ExportFrom {
        bound: Bound,
        named: Named,
    },
    /// `export` of a list in braces, up to the place `end`.
    ExportList {
        items: List<Item>,
        end: u32,
    },
    /// `export default`, with the name of a function or a class where it has one. The words end at `end`.
    ExportDefault {
        end: u32,
        local: Option<Token>,
    },
    /// `export` before what declares these names.
    ExportDeclared {
        names: List<Token>,
    },
}

/// What is found at one word of a script.
#[derive(Drop)]
pub enum Found {
    /// A call of `require` with one string.
    Require(Named),
    /// A call of `import` with one string. `word` is the `import`.
    ImportCall { word: Token, named: Named },
    /// A call of one of them with something else.
    Dynamic,
    /// An import or an export. `word` is the `import` or `export`.
    Statement { word: Token, form: Form },
}

/// How far the front of a function is read.
#[derive(Clone, Copy)]
pub enum Head {
    /// No `function` is before.
    Elsewhere,
    /// `function` is.
    Function,
    /// Its `*` is.
    Star,
    /// Its name is.
    Name,
}

/// What the tokens before one tell of the function around it.
#[derive(Clone, Copy)]
pub struct Cover {
    /// How far the front of a function is read.
    pub head: Head,
    /// How many of the next tokens are in a function that shields them.
    pub count: usize,
}
