//! What rules are of.

use ast::Rule;

/// Whether a rule is one for the texts of statements.
pub fn is_of_text(rule: Rule) -> bool {
    matches!(rule.number(), 20..=27)
}

/// Whether a rule is one of the profile.
pub fn is_of_profile(rule: Rule) -> bool {
    matches!(rule.number(), 30..=43)
}
