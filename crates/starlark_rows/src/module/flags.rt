//! Dialects by their flags.
use starlark_lexer::dialect::{Dialect, DialectTypes};

/// The dialect that the arguments name: by its name, or by the flags that are on. No flag's name is part of another's.
pub fn dialect_of(words: &str) -> Dialect {
    match words {
        "all" => Dialect::All,
        "standard" => Dialect::Standard,
        _ => dialect_of_flags(words),
    }
}

fn dialect_of_flags(words: &str) -> Dialect {
    Dialect {
        enable_def: words.contains("def"),
        enable_lambda: words.contains("lambda"),
        enable_load: words.contains("load"),
        enable_keyword_only_arguments: words.contains("keyword-only"),
        enable_positional_only_arguments: words.contains("positional-only"),
        enable_top_level_stmt: words.contains("top"),
        enable_f_strings: words.contains("f-strings"),
        enable_types: if words.contains("types-parsed") {
            DialectTypes::ParseOnly
        } else if words.contains("types") {
            DialectTypes::Enable
        } else {
            DialectTypes::Disable
        },
    }
}
