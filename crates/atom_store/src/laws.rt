ghost use Rattle.std.specs.Prelude.{◌≡◌, ◌≢◌, ◌<◌, ◌↔◌, ℕ, List, length, slice_index};
ghost use Rattle.atom_store.specs.declared.step.Step.{Step};
ghost use Rattle.atom_store.specs.declared.step.Step.TheVariants.{Load, Store, Exchange};
ghost use Rattle.atom_store.specs.declared.reply.Reply.TheVariants.{Value, Done, Won, Lost};
ghost use Rattle.atom_store.specs.Step.{place_in, words_after, reply_of};

/// A step changes at most its word, as its kind says.
pub fn steps_touch_one_word()
    ensures length_stays { (s : Step) (ws : List ℕ) → length (words_after s ws) ≡ length ws }
    ensures others_stay { (s : Step) (ws : List ℕ) (p : ℕ) →
        p ≢ place_in s → slice_index (words_after s ws) p ≡ slice_index ws p }
    ensures stored { (p value : ℕ) (ws : List ℕ) →
        p < length ws → slice_index (words_after (Store p value) ws) p ≡ value }
    ensures won_exactly { (p old new : ℕ) (ws : List ℕ) →
        (reply_of (Exchange p old new) ws ≡ Won) ↔ (slice_index ws p ≡ old) }
    ensures won_changes { (p old new : ℕ) (ws : List ℕ) → p < length ws →
        reply_of (Exchange p old new) ws ≡ Won → slice_index (words_after (Exchange p old new) ws) p ≡ new }
    ensures lost_tells_another { (p old new value : ℕ) (ws : List ℕ) →
        reply_of (Exchange p old new) ws ≡ Lost value → (value ≡ slice_index ws p) × (value ≢ old) }
    ensures lost_changes_nothing { (p old new value : ℕ) (ws : List ℕ) →
        reply_of (Exchange p old new) ws ≡ Lost value → words_after (Exchange p old new) ws ≡ ws }
{}
