//! What holds of the text of claims.
ghost use Rattle.std.specs.Prelude.{◌≡◌, ◌≢◌, ℕ, List, Result, Ok, Err};
ghost use Rattle.cert_text.specs.declared.claim.Claim.{Claim as Told};
ghost use Rattle.cert_text.specs.declared.cert_error.CertError.{CertError as Refusal};
ghost use Rattle.cert_text.specs.declared.cert_error.CertError.TheVariants.{OutOfMemory as NoMemory};
ghost use Rattle.cert_text.specs.Claims.{claim_text};
ghost use Rattle.cert_text.specs.Texts.{CanBeTold, IsBadAt};
ghost use Rattle.cert_text.specs.Taking.{IsClaimOf, Reads};

/// Law: no two claims in form within the limits have one text. (This project's own.)
pub fn one_claim_of_a_text()
    ensures { (a b : Told) → CanBeTold a → CanBeTold b → claim_text a ≡ claim_text b → a ≡ b }
{}

/// Law: the text of a claim in form within the limits has no bad line. (This project's own.)
pub fn text_of_a_claim_is_not_bad()
    ensures { (text : List ℕ) (claim : Told) (number : ℕ) → IsClaimOf text claim → IsBadAt text number → ⊥ }
{}

/// Law: where there is memory, the text of a claim in form within the limits is read as that claim. (This project's own.)
pub fn written_claim_is_read()
    ensures { (claim : Told) (answer : Result Told Refusal) → CanBeTold claim → Reads (claim_text claim) answer → answer ≢ Err NoMemory → answer ≡ Ok claim }
{}
