//! The laws of texts and words. A function of this file does nothing: its contract is the law.
ghost use Rattle.std.specs.Prelude.{◌≡◌, ℕ, List};
ghost use Rattle.customer_data.specs.Text.{IsData, put_left, first_text};
ghost use Rattle.customer_data.specs.Payments.{payment_text};
ghost use Rattle.customer_data.specs.declared.payments.PaymentText.{PaymentText};
ghost use Rattle.customer_data.specs.Words.{data_words};

/// Texts with the same words are the same. The function does nothing: its contract is the law.
pub fn words_determine_text()
    ensures { (text other : List ℕ) → IsData text → IsData other → data_words text ≡ data_words other → text ≡ other }
{}

/// What a Payment makes of a text of C_DATA is one again: printable, and of 300 to 500 characters. The function does
/// nothing: its contract is the law.
pub fn payments_keep_texts()
    ensures { (payment : PaymentText) (text : List ℕ) → IsData text → IsData (put_left (payment_text payment) text) }
{}

/// The text that each customer begins with is one of C_DATA. The function does nothing: its contract is the law.
pub fn first_text_is_one()
    ensures { IsData first_text }
{}
