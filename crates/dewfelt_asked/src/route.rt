//! What paths stand for.

ghost use Rattle.std.specs.Prelude.{IsSome, IsTrue};
ghost use Rattle.dewfelt_asked.specs.Paths.{is_open};

use dewfelt_board::digits_of;
use dewfelt_page::{File, file_at};

// The front of the paths of the interface.
const FRONT: &str = "/api/v1/";

// The front of the rest of a vehicle's path.
const VEHICLE: &str = "vehicles/";

/// What anybody may ask.
#[derive(Clone, Copy)]
pub enum Open {
    /// A file of the page.
    Page(File),
    /// Whether the process answers.
    Health,
    /// Whether links are served.
    Ready,
}

/// What is asked with a token.
#[derive(Clone, Copy, Debug, PartialEq, Eq)]
pub enum Route {
    Server,
    Changes,
    Vehicles,
    /// The vehicle of these digits.
    Vehicle([u8; 10]),
    /// The rows of the phone of these digits.
    Rows([u8; 10]),
    /// The fixes of the phone of these digits.
    Track([u8; 10]),
    Positions,
    Counts,
    Sessions,
    Strangers,
    Map,
    Metrics,
}

impl Route {
    /// How many there are.
    pub const COUNT: usize = 12;

    /// Their words in metrics, by their places.
    pub const WORDS: [&'static str; Route::COUNT] = [
        "server",
        "changes",
        "vehicles",
        "vehicle",
        "positions",
        "counts",
        "sessions",
        "strangers",
        "map",
        "metrics",
        "rows",
        "track",
    ];

    /// Its place among them.
    pub fn place(self) -> usize {
        match self {
            Route::Server => 0,
            Route::Changes => 1,
            Route::Vehicles => 2,
            Route::Vehicle(_) => 3,
            Route::Positions => 4,
            Route::Counts => 5,
            Route::Sessions => 6,
            Route::Strangers => 7,
            Route::Map => 8,
            Route::Metrics => 9,
            Route::Rows(_) => 10,
            Route::Track(_) => 11,
        }
    }

    // What a path behind the front of vehicles' paths stands for.
    fn of_vehicle(rest: &str) -> Option<Route> {
        match rest.split_once('/') {
            None => Some(Route::Vehicle(digits_of(rest)?)),
            Some((phone, "rows")) => Some(Route::Rows(digits_of(phone)?)),
            Some((phone, "track")) => Some(Route::Track(digits_of(phone)?)),
            Some(_) => None,
        }
    }

    // What a path behind the front stands for.
    fn of(rest: &str) -> Option<Route> {
        match rest {
            "server" => Some(Route::Server),
            "changes" => Some(Route::Changes),
            "vehicles" => Some(Route::Vehicles),
            "positions" => Some(Route::Positions),
            "counts" => Some(Route::Counts),
            "sessions" => Some(Route::Sessions),
            "strangers" => Some(Route::Strangers),
            "map" => Some(Route::Map),
            _ => Route::of_vehicle(rest.strip_prefix(VEHICLE)?),
        }
    }

    /// What a path stands for that wants a token.
    pub fn at(path: &str) -> Option<Route> {
        if path == "/metrics" {
            return Some(Route::Metrics);
        }
        Route::of(path.strip_prefix(FRONT)?)
    }
}

/// What a path stands for that wants no token.
pub fn open_at(path: &str) -> Option<Open>
    ensures { IsSome result → IsTrue (is_open path.now) }
{
    match path {
        "/healthz" => Some(Open::Health),
        "/readyz" => Some(Open::Ready),
        _ => Some(Open::Page(file_at(path)?)),
    }
}
