// How a reply is accepted, over a list of words.
ghost use Rattle.std.specs.Prelude.{◌≡◌, ◌≤◌, ℕ, List, [], ◌∷◌, true, false, Ok, Err, nat_eq, slice_index};
ghost use Rattle.std.specs.List.{IsDistinct};
ghost use Rattle.page_words.specs.declared.item.Item.{Item};
ghost use Rattle.page_words.specs.Dialogue.{Follows, listen, loads_of, over};
ghost use Rattle.exit_info.specs.declared.inject.Inject.{Inject};
ghost use Rattle.exit_info.specs.declared.inject.BadInject.{BadInject};
ghost use Rattle.exit_info.specs.Inject.{request_of};
ghost use Rattle.event_table.specs.declared.end.Reason.TheVariants.{BadException, BadStatus};
ghost use Rattle.event_table.specs.declared.event.Event.{Event};
ghost use Rattle.event_table.specs.declared.outcome.Outcome.{Outcome};
ghost use Rattle.event_table.specs.declared.outcome.Outcome.TheVariants.{Raise, Terminate};
ghost use Rattle.vc_handler.specs.Accept.{accepting};
ghost use Rattle.vc_handler.specs.ReplyTable as reply;
ghost use Rattle.vc_handler.specs.ReplyTable.{acceptance, status_of, taken_by};

/// A reply is accepted by a table, whose case the low half of SW_EXITINFO1 gives. Each case is a clause:
/// which words are loaded, in order, what they come to, and which words are left.
pub fn accepts_by_table()
    // 0, and each result has its bit: the words of the bitmap, then those of the results, and then those of the
    // shared buffer with the bytes of an input block or of an MMIO read.
    ensures done { (event : Event) (words : List ℕ) → status_of words ≡ 0 → reply.has_results event words ≡ true →
        acceptance event words
        ≡ taken_by (reply.up_to_bytes event) (reply.results_loaded event) words }
    // 0, and a result lacks its bit: the words of the bitmap alone.
    ensures missing { (event : Event) (words : List ℕ) → status_of words ≡ 0 → reply.has_results event words ≡ false →
        acceptance event words ≡ taken_by (reply.up_to_bitmap event) reply.missing_loaded words }
    // 1: SW_EXITINFO2, which asks for an exception ..
    ensures raised { (event : Event) (words : List ℕ) (asked : Inject) → status_of words ≡ 1 →
        request_of (slice_index words 1) ≡ Ok asked →
        acceptance event words ≡ taken_by (115 ∷ 116 ∷ []) (λ _. Raise asked.vector asked.code) words }
    // .. or for none that a guest takes.
    ensures refused { (event : Event) (words : List ℕ) (bad : BadInject) → status_of words ≡ 1 →
        request_of (slice_index words 1) ≡ Err bad →
        acceptance event words ≡ taken_by (115 ∷ 116 ∷ []) (λ _. Terminate (BadException (slice_index words 1))) words }
    // Any other: no further word.
    ensures other { (event : Event) (words : List ℕ) → 2 ≤ status_of words →
        acceptance event words ≡ taken_by (115 ∷ []) (λ _. Terminate (BadStatus (slice_index words 0))) words }
{}

/// Whatever a page gives, no word of a reply is loaded twice.
pub fn loads_no_word_twice()
    ensures law { (event : Event) (items : List Item) (outcome : Outcome) →
        Follows (listen (accepting event) (λ o. over o)) items outcome → IsDistinct nat_eq (loads_of items) }
{}
