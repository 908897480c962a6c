//! Laws of streams. Each is a function that does nothing, whose contract is the law.

ghost use Rattle.std.specs.Prelude.{◌≡◌, ◌≤◌, ◌+◌, [], ◌∷◌, ◌++◌, List, ℕ, length, Option, All};
ghost use Rattle.std.specs.List.{flat_map};
ghost use Rattle.jt_value.specs.declared.refusal.Refusal.{Refusal};
ghost use Rattle.jt_value.specs.Octets.{AreOctets};
ghost use Rattle.jt_escape.specs.Frame.{framed};
ghost use Rattle.jt_escape.specs.Span.{Event, Whole, HasOctets, IsContent, Events, Ends, contents_from};
ghost use Rattle.jt_escape.specs.Scan.{all_events, end_of_stream};

/// Each stream has exactly one list of events.
pub fn law_one_list()
    ensures some { (stream : List ℕ) → Events stream (all_events stream) }
    ensures one { (stream : List ℕ) (events others : List Event) →
        Events stream events → Events stream others → events ≡ others }
{}

/// The events of the front of a stream are the first events of the stream.
pub fn law_front()
    ensures { (front rest : List ℕ) (events all : List Event) → Events front events →
        Events (front ++ rest) all → (more : List Event) × (all ≡ events ++ more) }
{}

/// One more octet brings one event at most.
pub fn law_one_octet()
    ensures { (stream : List ℕ) (octet : ℕ) (events all : List Event) →
        Events stream events → Events (stream ++ octet ∷ []) all → length all ≤ length events + 1 }
{}

/// Frames, one after another, have their contents as events, each at its opening flag.
pub fn law_frames()
    ensures { (contents : List (List ℕ)) → All IsContent contents →
        Events (flat_map framed contents) (contents_from 0 contents) }
{}

/// The contents of a stream of octets are of octets.
pub fn law_octets()
    ensures { (stream : List ℕ) (events : List Event) → AreOctets stream → Events stream events →
        All HasOctets events }
{}

/// Where the first event is a content, and the last octet brings it, the stream is that content's frame.
pub fn law_first_frame()
    ensures { (front : List ℕ) (octet opened : ℕ) (content : List ℕ) →
        Events front [] → Events (front ++ octet ∷ []) (Whole opened content ∷ []) →
        (front ++ octet ∷ [] ≡ framed content) × (opened ≡ 0) }
{}

/// Each stream's end is judged in exactly one way.
pub fn law_one_end()
    ensures some { (stream : List ℕ) → Ends stream (end_of_stream stream) }
    ensures one { (stream : List ℕ) (end other : Option Refusal) →
        Ends stream end → Ends stream other → end ≡ other }
{}
