//! The refusals of a source.
ghost use Rattle.std.specs.Prelude.{◌≡◌};
ghost use Rattle.mt_tokens.specs.Transform.{token_refusal as refusal_of_tokens, dep_refusal as refusal_of_deps};

use mt_deps::DepFault;
use mt_tokens::{SourceFault, SyntaxFault, TokenFault};

/// The refusal of a source whose text has no tokens.
pub(crate) fn token_refusal(fault: TokenFault) -> SourceFault
    ensures { result ≡ refusal_of_tokens fault }
{
    match fault {
        TokenFault::UnclosedString { place } => SourceFault::Syntax {
            place,
            why: SyntaxFault::UnclosedString,
        },
        TokenFault::UnclosedComment { place } => SourceFault::Syntax {
            place,
            why: SyntaxFault::UnclosedComment,
        },
        TokenFault::UnclosedTemplate { place } => SourceFault::Syntax {
            place,
            why: SyntaxFault::UnclosedTemplate,
        },
        TokenFault::UnclosedRegex { place } => SourceFault::Syntax {
            place,
            why: SyntaxFault::UnclosedRegex,
        },
        TokenFault::BadByte { place } => SourceFault::Syntax {
            place,
            why: SyntaxFault::BadCharacter,
        },
        TokenFault::Unbalanced { place } => SourceFault::Syntax {
            place,
            why: SyntaxFault::UnbalancedBracket,
        },
        TokenFault::NoMemory => SourceFault::NoMemory,
    }
}

/// The refusal of a source whose text has no dependencies.
pub(crate) fn dep_refusal(fault: DepFault) -> SourceFault
    ensures { result ≡ refusal_of_deps fault }
{
    match fault {
        DepFault::ImportForm { place } => SourceFault::Syntax {
            place,
            why: SyntaxFault::ImportForm,
        },
        DepFault::ExportForm { place } => SourceFault::Syntax {
            place,
            why: SyntaxFault::ExportForm,
        },
        DepFault::NoMemory => SourceFault::NoMemory,
    }
}
