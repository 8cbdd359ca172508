//! Laws of the JSON of responses, as contracts of functions that do nothing.

ghost use Rattle.std.specs.Prelude.{◌≡◌};
ghost use Rattle.serde_json.specs.Written.{compact_text};
ghost use Rattle.imap_proto.specs.Responses.{ResponseValue, lent_response};
ghost use Rattle.imap_json.specs.Responses.{json_of};
ghost use Rattle.imap_json.specs.Laws.{HasU64s};
ghost use Rattle.imap_grammar.specs.Text.{Bytes};
ghost use Rattle.imap_json.specs.Skipped.{skipped_json};

/// Responses that don't say the same have other JSON: nothing of them is left out.
#[tactic(auto, using(crate::proofs::FaithfulResponses::responses_apart))]
pub fn apart()
    ensures { (a b : ResponseValue) → json_of a ≡ json_of b → lent_response a ≡ lent_response b }
{}

/// So have their texts, however deep bodies nest, where each number has 64 bits at most, as those of each type have.
#[tactic(auto, using(crate::proofs::EqualTexts::texts_apart))]
pub fn texts_apart()
    ensures { (a b : ResponseValue) → HasU64s (json_of a) → HasU64s (json_of b) →
        compact_text (json_of a) ≡ compact_text (json_of b) → lent_response a ≡ lent_response b }
{}

/// Responses that say the same have one text, whichever of their texts are borrowed.
#[tactic(auto, using(crate::proofs::EqualTexts::one_text))]
pub fn one_text()
    ensures { (a b : ResponseValue) → lent_response a ≡ lent_response b →
        compact_text (json_of a) ≡ compact_text (json_of b) }
{}

/// Skipped lines of other bytes have other JSON.
#[tactic(auto, using(crate::proofs::FaithfulResponses::skipped_apart))]
pub fn skipped_apart()
    ensures { (a b : Bytes) → skipped_json a ≡ skipped_json b → a ≡ b }
{}
