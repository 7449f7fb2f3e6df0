//! Words that names and texts are made of.

use std::alloc::{AllocError, Global};

static WORDS: [&str; 32] = [
    "account", "amount", "branch", "channel", "commit", "customer", "deadline", "delivery",
    "device", "discount", "document", "endpoint", "invoice", "label", "message", "method",
    "network", "order", "owner", "payment", "priority", "product", "project", "reason", "region",
    "release", "request", "response", "revision", "service", "session", "volume",
];

/// Words as JSON writes them, past ASCII or with escapes.
static MARKED: [&str; 16] = [
    "Zürich",
    "naïve",
    "Ελλάδα",
    "Москва",
    "東京都",
    "العربية",
    "🚀",
    "5 €",
    "line\\nbreak",
    "tab\\tstop",
    "\\\"quoted\\\"",
    "C:\\\\temp",
    "https:\\/\\/example",
    "caf\\u00e9",
    "\\u6771\\u4eac",
    "\\ud83d\\ude80",
];

/// One of the words, by any number.
pub fn word(number: u64) -> &'static str {
    match WORDS.get((number % 32) as usize) {
        Some(word) => word,
        None => "",
    }
}

/// A word of a text as JSON writes it, by any number. One in eight is past ASCII or has an escape.
pub fn text_word(number: u64) -> &'static str {
    if (number >> 8) % 8 == 0 {
        marked_word(number >> 16)
    } else {
        word(number)
    }
}

/// A word as JSON writes it that is past ASCII or has an escape, by any number.
pub fn marked_word(number: u64) -> &'static str {
    match MARKED.get((number % 16) as usize) {
        Some(word) => word,
        None => "",
    }
}

/// A name of a word and a number, as `invoice_17`.
pub fn numbered(alloc: Global, word: &str, number: u64) -> Result<String, AllocError> {
    format!(in alloc; "{word}_{number}")
}
