//! What requests are answered by.

ghost use Rattle.std.specs.Prelude.{◌≡◌, [], OnOk};
ghost use Rattle.dewfelt_http.specs.Answered.{IsAnswered};
ghost use Rattle.dewfelt_http.specs.Problems.{Refuses};

use crate::metrics::metrics_text;
use crate::sending::{
    guard_headers, send, send_file, send_json, send_not_ready, send_problem, send_tagged,
};
use crate::sending_rows::{send_rows, send_track};
use crate::server_json::{ROWS_LIMIT, SESSIONS_LIMIT, VEHICLES_LIMIT, ready_text, server_text};
use crate::site::{Base, Site};
use bytes::Bytes;
use dewfelt_asked::{Access, Admitted, Open, Problem, Query, Refused, Route, Word, read_rows};
use dewfelt_board::{Vehicle, phone_text};
use dewfelt_shown::{
    Sight, changes_text, counts_text, ended_text, positions_text, sessions_text, strangers_text,
    vehicle_text, vehicles_text,
};
use dewfelt_tracks::{Owner, Range, RowsPage, TrackPage, rows_page, track_of};
use http::header::HeaderValue;
use http::{Request, StatusCode};
use http_server::{Response, Service};
use std::alloc::{AllocError, Global};

// So many vehicles a page has where no limit is asked for.
const USUAL_VEHICLES: u32 = 500;

const NO_VEHICLE: &str = "no vehicle is registered with this phone";

const NO_ROWS: &str = "no vehicle is registered with this phone, and it has no rows";

const NO_MAP: &str = "there is no map.geojson in the folder of the service";

/// Answers requests over what is seen of a board.
#[derive(Drop)]
pub struct Desk<'a, S> {
    alloc: Global,
    site: &'a Site,
    sight: &'a S,
}

// What an answer says.
#[derive(Drop)]
enum Said {
    Json(Vec<u8>),
    GeoJson(Vec<u8>),
    Metrics(Vec<u8>),
    Rows(RowsPage),
    Track(TrackPage),
    Map,
}

// The plate of a phone that is registered.
fn plate_of(vehicle: Option<&Vehicle>) -> &[u8] {
    match vehicle {
        Some(vehicle) => vehicle.plate.as_slice(),
        None => &[],
    }
}

// The number of the last row of a phone, where it is registered and has one.
fn last_of(vehicle: Option<&Vehicle>) -> Option<u64> {
    match vehicle {
        Some(vehicle) => vehicle.last,
        None => None,
    }
}

impl<'a, S: Sight> Desk<'a, S> {
    /// Answers over this site and this sight.
    pub fn new(alloc: Global, site: &'a Site, sight: &'a S) -> Desk<'a, S> {
        Desk { alloc, site, sight }
    }

    fn changes(&self, query: Option<&str>) -> Result<Vec<u8>, Refused> {
        let query = Query::read(self.alloc, query, &[Word::Since, Word::Limit])?;
        let since = query.since(self.alloc)?;
        let limit = query.limit(self.alloc, VEHICLES_LIMIT, VEHICLES_LIMIT)?;
        let changes = self.sight.changes(self.alloc, since, limit)?;
        Ok(changes_text(self.alloc, &changes, self.sight.now())?)
    }

    fn vehicles(&self, query: Option<&str>, usual: u32) -> Result<(Vec<Vehicle>, usize), Refused> {
        let query = Query::read(self.alloc, query, &[Word::After, Word::Limit])?;
        let after = query.after_phone(self.alloc)?;
        let limit = query.limit(self.alloc, usual, VEHICLES_LIMIT)?;
        let list = self
            .sight
            .vehicles_behind(self.alloc, after, limit.saturating_add(1))?;
        Ok((list, limit))
    }

    fn vehicle(&self, digits: &[u8; 10]) -> Result<Vec<u8>, Refused> {
        match self.sight.vehicle(digits) {
            Some(vehicle) => Ok(vehicle_text(self.alloc, &vehicle)?),
            None => Err(Problem::new(self.alloc, StatusCode::NOT_FOUND, NO_VEHICLE)),
        }
    }

    // The vehicle of a phone; None where it is not registered any more, and rows of it are kept.
    fn known(&self, digits: &[u8; 10]) -> Result<Option<Vehicle>, Refused> {
        if let Some(vehicle) = self.sight.vehicle(digits) {
            return Ok(Some(vehicle));
        }
        let rows = self.sight.rows_from(self.alloc, digits, 0, 1);
        if read_rows(self.alloc, rows)?.is_empty() {
            return Err(Problem::new(self.alloc, StatusCode::NOT_FOUND, NO_ROWS));
        }
        Ok(None)
    }

    fn rows(&self, digits: &[u8; 10], query: Option<&str>) -> Result<RowsPage, Refused> {
        let query = Query::read(self.alloc, query, &[Word::From, Word::Limit])?;
        self.known(digits)?;
        let from = query.from_number(self.alloc)?;
        let limit = query.limit(self.alloc, ROWS_LIMIT, ROWS_LIMIT)?;
        rows_page(self.alloc, self.sight, digits, from, limit)
    }

    // A track of a phone that is registered so, or not any more.
    fn track_page(
        &self,
        digits: &[u8; 10],
        vehicle: Option<&Vehicle>,
        query: &Query,
    ) -> Result<TrackPage, Refused> {
        let range = Range::read(self.alloc, query)?;
        let form = query.form(self.alloc)?;
        let track = track_of(self.alloc, self.sight, digits, range, last_of(vehicle))?;
        let phone = phone_text(self.alloc, digits)?;
        let owner = Owner {
            phone: phone.as_str(),
            plate: plate_of(vehicle),
        };
        Ok(TrackPage::of(self.alloc, owner, &track, form)?)
    }

    fn track(&self, digits: &[u8; 10], query: Option<&str>) -> Result<TrackPage, Refused> {
        let allowed = &[Word::From, Word::To, Word::Form, Word::Limit, Word::After];
        let query = Query::read(self.alloc, query, allowed)?;
        let vehicle = self.known(digits)?;
        self.track_page(digits, vehicle.as_ref(), &query)
    }

    fn sessions(&self, query: Option<&str>) -> Result<Vec<u8>, Refused> {
        let query = Query::read(self.alloc, query, &[Word::Ended, Word::After, Word::Limit])?;
        if query.ended(self.alloc)? {
            let list = self.sight.ended(self.alloc)?;
            return Ok(ended_text(self.alloc, list.as_slice())?);
        }
        let after = query.after_number(self.alloc)?;
        let limit = query.limit(self.alloc, SESSIONS_LIMIT, SESSIONS_LIMIT)?;
        let list = self.sight.open_behind(self.alloc, after, limit)?;
        Ok(sessions_text(self.alloc, list.as_slice(), self.sight.sizes().sessions)?)
    }

    fn metrics(&self) -> Result<Vec<u8>, Refused> {
        let counters = self.sight.counters();
        let text = metrics_text(self.alloc, self.site, &counters, self.sight.sizes())?;
        Ok(text.into_bytes())
    }

    fn server(&self, access: Access) -> Result<Vec<u8>, Refused> {
        let sizes = self.sight.sizes();
        Ok(server_text(self.alloc, self.site, access, sizes, self.sight.now())?)
    }

    fn strangers(&self) -> Result<Vec<u8>, Refused> {
        let list = self.sight.strangers(self.alloc)?;
        Ok(strangers_text(self.alloc, list.as_slice())?)
    }

    fn positions(&self, query: Option<&str>) -> Result<Vec<u8>, Refused> {
        let (list, limit) = self.vehicles(query, VEHICLES_LIMIT)?;
        Ok(positions_text(self.alloc, list.as_slice(), limit)?)
    }

    fn list(&self, query: Option<&str>) -> Result<Vec<u8>, Refused> {
        let (list, limit) = self.vehicles(query, USUAL_VEHICLES)?;
        Ok(vehicles_text(self.alloc, list.as_slice(), limit)?)
    }

    fn counts(&self, query: Option<&str>) -> Result<Vec<u8>, Refused> {
        let (list, limit) = self.vehicles(query, VEHICLES_LIMIT)?;
        Ok(counts_text(self.alloc, list.as_slice(), limit)?)
    }

    // What a route without words in its query says.
    fn say_plain(&self, route: Route, access: Access) -> Result<Said, Refused> {
        match route {
            Route::Server => Ok(Said::Json(self.server(access)?)),
            Route::Vehicle(digits) => Ok(Said::Json(self.vehicle(&digits)?)),
            Route::Strangers => Ok(Said::Json(self.strangers()?)),
            Route::Metrics => Ok(Said::Metrics(self.metrics()?)),
            _ => Ok(Said::Map),
        }
    }

    // What a route says.
    fn say(&self, route: Route, access: Access, query: Option<&str>) -> Result<Said, Refused> {
        match route {
            Route::Changes => Ok(Said::Json(self.changes(query)?)),
            Route::Vehicles => Ok(Said::Json(self.list(query)?)),
            Route::Positions => Ok(Said::GeoJson(self.positions(query)?)),
            Route::Counts => Ok(Said::Json(self.counts(query)?)),
            Route::Sessions => Ok(Said::Json(self.sessions(query)?)),
            Route::Rows(digits) => Ok(Said::Rows(self.rows(&digits, query)?)),
            Route::Track(digits) => Ok(Said::Track(self.track(&digits, query)?)),
            _ => {
                Query::read(self.alloc, query, &[])?;
                self.say_plain(route, access)
            }
        }
    }

    fn send_base(
        &self,
        request: &Request<Bytes>,
        response: &mut Response,
        base: &Base,
    ) -> Result<(), AllocError> {
        let content = Bytes::copy_from_slice(self.alloc, base.content.as_slice())?;
        send_tagged(
            self.alloc,
            request,
            response,
            HeaderValue::from_static("application/geo+json"),
            base.tag.as_str(),
            content,
        )
    }

    fn send_map(
        &self,
        request: &Request<Bytes>,
        response: &mut Response,
    ) -> Result<(), AllocError> {
        match &self.site.base {
            Some(base) => self.send_base(request, response, base),
            None => self.refuse(
                response,
                Problem::new(self.alloc, StatusCode::NOT_FOUND, NO_MAP),
            ),
        }
    }

    fn refuse(&self, response: &mut Response, refused: Refused) -> Result<(), AllocError>
        ensures { OnOk result (Refuses response.old.body.items response.new) }
    {
        match refused {
            Refused::Problem(problem) => {
                send_problem(self.alloc, response, &problem)?;
                Ok(())
            }
            Refused::Memory => Err(AllocError),
        }
    }

    fn send_said(
        &self,
        request: &Request<Bytes>,
        response: &mut Response,
        said: Said,
    ) -> Result<(), AllocError> {
        match said {
            Said::Json(text) => send_json(response, text),
            Said::GeoJson(text) => send(
                response,
                HeaderValue::from_static("application/geo+json"),
                text,
            ),
            Said::Metrics(text) => send(
                response,
                HeaderValue::from_static("text/plain; version=0.0.4; charset=utf-8"),
                text,
            ),
            Said::Rows(page) => send_rows(self.alloc, response, page),
            Said::Track(page) => send_track(self.alloc, response, page),
            Said::Map => self.send_map(request, response),
        }
    }

    fn send_open(
        &self,
        request: &Request<Bytes>,
        response: &mut Response,
        open: Open,
    ) -> Result<(), AllocError> {
        match open {
            Open::Page(file) => send_file(self.alloc, request, response, file),
            Open::Health => send(
                response,
                HeaderValue::from_static("text/plain; charset=utf-8"),
                Vec::from_slice(self.alloc, b"ok\n")?,
            ),
            Open::Ready => self.send_ready(response),
        }
    }

    fn send_ready(&self, response: &mut Response) -> Result<(), AllocError> {
        let is_ready = self.site.is_ready();
        let text = ready_text(self.alloc, is_ready)?;
        if is_ready {
            return send_json(response, text);
        }
        send_not_ready(response, text)
    }

    // Answers by a route.
    fn send_route(
        &self,
        request: &Request<Bytes>,
        response: &mut Response,
        route: Route,
        access: Access,
    ) -> Result<(), AllocError> {
        match self.say(route, access, request.uri().query()) {
            Ok(said) => self.send_said(request, response, said)?,
            Err(refused) => self.refuse(response, refused)?,
        }
        self.site.requests.count(Some(route), response.status);
        Ok(())
    }

    // Answers what is admitted.
    fn send_admitted(
        &self,
        request: &Request<Bytes>,
        response: &mut Response,
        admitted: Admitted,
    ) -> Result<(), AllocError> {
        match admitted {
            Admitted::Route(route, access) => self.send_route(request, response, route, access),
            Admitted::Open(open) => {
                self.send_open(request, response, open)?;
                self.site.requests.count(None, response.status);
                Ok(())
            }
        }
    }

    // Answers why nothing is admitted.
    fn send_refused(&self, response: &mut Response, refused: Refused) -> Result<(), AllocError>
        ensures { OnOk result (Refuses response.old.body.items response.new) }
    {
        self.refuse(response, refused)?;
        self.site.requests.count(None, response.status);
        Ok(())
    }

    fn answer(&self, request: &Request<Bytes>, response: &mut Response) -> Result<(), AllocError>
        requires { response.old.body.items ≡ [] }
        ensures { OnOk result (IsAnswered self.now.site.now.gate request.now response.new) }
    {
        guard_headers(response)?;
        match self.site.gate.admit(self.alloc, request) {
            Ok(admitted) => {
                self.send_admitted(request, response, admitted)?;
                Ok(())
            }
            Err(refused) => {
                self.send_refused(response, refused)?;
                Ok(())
            }
        }
    }
}

impl<'a, S: Sight> Service for Desk<'a, S> {
    ghost use Rattle.std.specs.Prelude.{◌≡◌};
    ghost use Rattle.dewfelt_http.specs.Answered.{IsAnswered};

    // The desk stays as it is; who is not admitted is refused.
    ghost answers = { λ old request response new.
        (new ≡ old) × IsAnswered old.site.now.gate request response };

    fn call(
        &mut self,
        request: &Request<Bytes>,
        response: &mut Response,
    ) -> Result<(), AllocError> {
        self.answer(request, response)
    }
}
