//! What `--help` and `--version` say.

/// The line of `--version`.
pub const VERSION: &str = "dewfelt 0.1.0\n";

/// The text of `--help`.
pub const HELP: &str = "dewfelt: a platform for JT/T 808 terminals

  dewfelt serve DIR [OPTIONS]   serve the fleet of the file DIR/fleet; rows go into DIR/platform.db
  dewfelt check DIR [OPTIONS]   say what is wrong with DIR/fleet and DIR/dewfelt.toml, and start nothing
  dewfelt page DIR [OPTIONS]    print the address of the page of a service over DIR, with its token
  dewfelt registrations DIR     print the phones that are registered, each with its plate and its terminal id
  dewfelt forget DIR PHONE      remove the registration of a phone, of 1 to 20 digits; a service ends its link
  dewfelt copy DIR FILE         copy rows and registrations into a new file, also while a service runs
  dewfelt stop DIR              stop the service over DIR, and wait until it is gone
  dewfelt --help                this text
  dewfelt --version             the version

Options. Each but the last may stand in DIR/dewfelt.toml too, as links = 1024; a word wins over the file.

  --listen ADDRESS:PORT         where to listen; of IPv6 as [::]:8808 (default 0.0.0.0:8808)
  --links N                     so many links at a time, 1 to 10000; the next one is closed at once (default 1024)
  --quiet SECONDS               a link that is quiet for so long is ended, 1 to 86400 (default 180)
  --strangers N                 so many of the links may be of terminals that were not let in (default half of the links)
  --strangers-of-address N      so many of these may come from one address (default: no limit)
  --http ADDRESS:PORT|none      where the page and the interface for other programs are (default 127.0.0.1:8080)
  --http-name NAME              the host by which a proxy calls them, with its port where a browser sends one
  --until-input-ends            end when standard input ends
";
