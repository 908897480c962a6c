//! Laws of streams. Each is a function with nothing to run, whose contract is the law.

ghost use Rattle.std.specs.Prelude.{◌≡◌, ◌≤◌, ◌+◌, [], ◌∷◌, ◌++◌, List, ℕ, length, map, All};
ghost use Rattle.std.specs.List.{flat_map};
ghost use Rattle.jt_value.specs.Octets.{AreOctets};
ghost use Rattle.jt_escape.specs.Frame.{framed};
ghost use Rattle.jt_escape.specs.Span.{IsContent};
ghost use Rattle.jt_header.specs.Content.{Content};
ghost use Rattle.jt_header.specs.declared.header.Header.{Header};
ghost use Rattle.jt_stream.specs.Item.{Item, Items, all_items};
ghost use Rattle.jt_stream.specs.Unplaced.{Unplaced, Message, items, of_content, unplaced};

use jt_header::law_of_contents;

/// Each stream of octets has exactly one list of items.
pub fn law_one_list()
    ensures some { (stream : List ℕ) → AreOctets stream → (list : List Item) × Items stream list }
    ensures one { (stream : List ℕ) (list other : List Item) → Items stream list →
        Items stream other → list ≡ other }
{
    jt_escape::law_one_list();
    jt_escape::law_octets();
    law_of_contents();
}

/// Without their places, the items of a stream are a function of the stream.
pub fn law_items()
    ensures { (stream : List ℕ) (list : List Item) → Items stream list →
        map unplaced list ≡ items stream }
{
    jt_escape::law_one_list();
    law_of_contents();
}

/// The items of the front of a stream are the first items of the stream.
pub fn law_front()
    ensures placed { (front rest : List ℕ) (list all : List Item) →
        Items front list → Items (front ++ rest) all → (more : List Item) × (all ≡ list ++ more) }
    ensures unplaced { (front rest : List ℕ) →
        (more : List Unplaced) × (items (front ++ rest) ≡ items front ++ more) }
{
    jt_escape::law_one_list();
    jt_escape::law_front();
    law_of_contents();
}

/// One more octet completes one item at most.
pub fn law_one_octet()
    ensures { (stream : List ℕ) (octet : ℕ) →
        length (items (stream ++ octet ∷ [])) ≤ length (items stream) + 1 }
{
    jt_escape::law_one_list();
    jt_escape::law_one_octet();
}

/// Frames, one after another, are what their contents are.
pub fn law_frames()
    ensures frames { (contents : List (List ℕ)) → All IsContent contents →
        items (flat_map framed contents) ≡ map of_content contents }
    ensures message { (header : Header) (body content : List ℕ) → Content header body content →
        of_content content ≡ Message header body }
{
    jt_escape::law_one_list();
    jt_escape::law_frames();
    law_of_contents();
}

/// With their places, too, the items of a stream are a function of the stream, and those of its front come first.
pub fn law_all_items()
    ensures only { (stream : List ℕ) (list : List Item) → Items stream list →
        list ≡ all_items stream }
    ensures held { (stream : List ℕ) → AreOctets stream → Items stream (all_items stream) }
    ensures front { (front rest : List ℕ) →
        (more : List Item) × (all_items (front ++ rest) ≡ all_items front ++ more) }
{
    jt_escape::law_one_list();
    jt_escape::law_front();
    law_of_contents();
    law_one_list();
}
