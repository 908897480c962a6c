//! That two definitions of a general response say the same.

ghost use Rattle.std.specs.Prelude.{◌≡◌, ◌↔◌, ℕ, List, Some};
ghost use Rattle.jt_header.specs.declared.header.Header.{Header};
ghost use Rattle.jt_order_turns.specs.Turns.{IsResponse};
ghost use Rattle.jt_order_session.specs.Responses.{response_in};
ghost use Rattle.jt_order_session.specs.declared.response.Response.{Response};

/// The general response that a session takes a frame for is the one that the world of orders takes it for.
pub fn law_of_responses()
    ensures { (h : Header) (octets : List ℕ) (r : Response) →
        (response_in h octets ≡ Some r) ↔ IsResponse h octets r.reply r.id r.result }
{}
