//! Reserved words.

ghost use Rattle.std.specs.Prelude.{◌≡◌};
ghost use Rattle.rs_token.specs.Reserved as spec;

fn is_definition_word(word: &[u8]) -> bool
    ensures { result ≡ spec.is_among spec.definition_words word.now }
{
    word == b"create".as_slice()
        || word == b"table".as_slice()
        || word == b"drop".as_slice()
        || word == b"index".as_slice()
        || word == b"on".as_slice()
        || word == b"synonym".as_slice()
        || word == b"for".as_slice()
        || word == b"migrate".as_slice()
        || word == b"to".as_slice()
        || word == b"unique".as_slice()
}

fn is_program_word(word: &[u8]) -> bool
    ensures { result ≡ spec.is_among spec.program_words word.now }
{
    word == b"compile".as_slice()
        || word == b"as".as_slice()
        || word == b"end".as_slice()
        || word == b"program".as_slice()
        || word == b"execute".as_slice()
        || word == b"explain".as_slice()
        || word == b"show".as_slice()
        || word == b"sections".as_slice()
        || word == b"cache".as_slice()
        || word == b"outcome".as_slice()
}

fn is_change_word(word: &[u8]) -> bool
    ensures { result ≡ spec.is_among spec.change_words word.now }
{
    word == b"insert".as_slice()
        || word == b"into".as_slice()
        || word == b"values".as_slice()
        || word == b"update".as_slice()
        || word == b"set".as_slice()
        || word == b"delete".as_slice()
        || word == b"grant".as_slice()
        || word == b"revoke".as_slice()
        || word == b"snapshot".as_slice()
        || word == b"refresh".as_slice()
}

fn is_query_word(word: &[u8]) -> bool
    ensures { result ≡ spec.is_among spec.query_words word.now }
{
    word == b"select".as_slice()
        || word == b"distinct".as_slice()
        || word == b"from".as_slice()
        || word == b"where".as_slice()
        || word == b"group".as_slice()
        || word == b"by".as_slice()
        || word == b"order".as_slice()
        || word == b"asc".as_slice()
        || word == b"desc".as_slice()
}

fn is_term_word(word: &[u8]) -> bool
    ensures { result ≡ spec.is_among spec.term_words word.now }
{
    word == b"and".as_slice()
        || word == b"or".as_slice()
        || word == b"int".as_slice()
        || word == b"integer".as_slice()
        || word == b"text".as_slice()
        || word == b"count".as_slice()
        || word == b"sum".as_slice()
        || word == b"min".as_slice()
        || word == b"max".as_slice()
}

/// Returns whether a word, in lower case, is reserved and can't be a name.
#[tactic(auto, unfolding(crate::specs::Reserved::is_reserved))]
pub fn is_reserved(word: &[u8]) -> bool
    ensures { result ≡ spec.is_reserved word.now }
{
    is_definition_word(word)
        || is_program_word(word)
        || is_change_word(word)
        || is_query_word(word)
        || is_term_word(word)
}
