// What holds of every reply, as a function whose contract is the law.
ghost use Rattle.std.specs.Prelude.{◌≡◌, ◌++◌, ℕ, List};
ghost use Rattle.plain_model.specs.declared.reply.Reply.{Reply};
ghost use Rattle.reply_text.specs.Apart.{HasNumbers, told};
ghost use Rattle.reply_text.specs.Text.{reply_text};

/// Replies are told apart by their texts, whatever is printed behind them: no text is the beginning of
/// another.
pub fn replies_are_told_apart()
    ensures { (a b : Reply) (x y : List ℕ) → HasNumbers a → HasNumbers b
        → reply_text a ++ x ≡ reply_text b ++ y → (told a ≡ told b) × (x ≡ y) }
{}
