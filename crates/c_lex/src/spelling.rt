//! The spellings of keywords and punctuators.

ghost use Rattle.std.specs.Prelude.{◌≡◌, ◌≢◌, map, MatchOption};
ghost use Rattle.c_lex.specs.declared.token.Keyword.{Keyword as KeywordKind};
ghost use Rattle.c_lex.specs.declared.token.Punct.{Punct as PunctKind};
ghost use Rattle.c_lex.specs.Spellings.{keyword_spelling, punct_spelling, lookup};

use crate::token::{Keyword, Punct};

const KEYWORDS: [(&[u8], Keyword); 44] = [
    (b"auto", Keyword::Auto),
    (b"break", Keyword::Break),
    (b"case", Keyword::Case),
    (b"char", Keyword::Char),
    (b"const", Keyword::Const),
    (b"continue", Keyword::Continue),
    (b"default", Keyword::Default),
    (b"do", Keyword::Do),
    (b"double", Keyword::Double),
    (b"else", Keyword::Else),
    (b"enum", Keyword::Enum),
    (b"extern", Keyword::Extern),
    (b"float", Keyword::Float),
    (b"for", Keyword::For),
    (b"goto", Keyword::Goto),
    (b"if", Keyword::If),
    (b"inline", Keyword::Inline),
    (b"int", Keyword::Int),
    (b"long", Keyword::Long),
    (b"register", Keyword::Register),
    (b"restrict", Keyword::Restrict),
    (b"return", Keyword::Return),
    (b"short", Keyword::Short),
    (b"signed", Keyword::Signed),
    (b"sizeof", Keyword::Sizeof),
    (b"static", Keyword::Static),
    (b"struct", Keyword::Struct),
    (b"switch", Keyword::Switch),
    (b"typedef", Keyword::Typedef),
    (b"union", Keyword::Union),
    (b"unsigned", Keyword::Unsigned),
    (b"void", Keyword::Void),
    (b"volatile", Keyword::Volatile),
    (b"while", Keyword::While),
    (b"_Alignas", Keyword::Alignas),
    (b"_Alignof", Keyword::Alignof),
    (b"_Atomic", Keyword::Atomic),
    (b"_Bool", Keyword::Bool),
    (b"_Complex", Keyword::Complex),
    (b"_Generic", Keyword::Generic),
    (b"_Imaginary", Keyword::Imaginary),
    (b"_Noreturn", Keyword::Noreturn),
    (b"_Static_assert", Keyword::StaticAssert),
    (b"_Thread_local", Keyword::ThreadLocal),
];

const PUNCTUATORS: [(&[u8], Punct); 43] = [
    (b"(", Punct::OpenParen),
    (b")", Punct::CloseParen),
    (b"[", Punct::OpenBracket),
    (b"]", Punct::CloseBracket),
    (b"{", Punct::OpenBrace),
    (b"}", Punct::CloseBrace),
    (b";", Punct::Semicolon),
    (b",", Punct::Comma),
    (b"?", Punct::Question),
    (b":", Punct::Colon),
    (b"=", Punct::Assign),
    (b"==", Punct::Equal),
    (b"!", Punct::Not),
    (b"!=", Punct::NotEqual),
    (b"<", Punct::Less),
    (b"<=", Punct::LessEqual),
    (b"<<", Punct::ShiftLeft),
    (b"<<=", Punct::ShiftLeftAssign),
    (b">", Punct::Greater),
    (b">=", Punct::GreaterEqual),
    (b">>", Punct::ShiftRight),
    (b">>=", Punct::ShiftRightAssign),
    (b"+", Punct::Plus),
    (b"++", Punct::Increment),
    (b"+=", Punct::PlusAssign),
    (b"-", Punct::Minus),
    (b"--", Punct::Decrement),
    (b"-=", Punct::MinusAssign),
    (b"*", Punct::Star),
    (b"*=", Punct::StarAssign),
    (b"/", Punct::Slash),
    (b"/=", Punct::SlashAssign),
    (b"%", Punct::Percent),
    (b"%=", Punct::PercentAssign),
    (b"&", Punct::And),
    (b"&&", Punct::AndAnd),
    (b"&=", Punct::AndAssign),
    (b"|", Punct::Or),
    (b"||", Punct::OrOr),
    (b"|=", Punct::OrAssign),
    (b"^", Punct::Xor),
    (b"^=", Punct::XorAssign),
    (b"~", Punct::Tilde),
];

// What the first entry with that spelling has.
fn lookup<K: Copy>(table: &[(&[u8], K)], word: &[u8]) -> Option<K>
    ensures { result ≡ lookup (map (λ entry. (entry.0.now, entry.1)) table.now) word.now }
{
    for entry in table {
        if entry.0 == word {
            return Some(entry.1);
        }
    }
    None
}

/// The keyword that is spelled so, if any.
pub fn keyword(word: &[u8]) -> Option<Keyword>
    ensures { MatchOption result ((k : KeywordKind) → word.now ≢ keyword_spelling k)
        (λ k. word.now ≡ keyword_spelling k) }
{
    lookup(&KEYWORDS, word)
}

/// The punctuator that is spelled so, if any.
pub fn punctuator(word: &[u8]) -> Option<Punct>
    ensures { MatchOption result ((p : PunctKind) → word.now ≢ punct_spelling p)
        (λ p. word.now ≡ punct_spelling p) }
{
    lookup(&PUNCTUATORS, word)
}
