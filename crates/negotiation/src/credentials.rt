// Name and password: what an authentication protocol is handed. They lie one behind the other, with zeros behind them.
ghost use Rattle.std.specs.Prelude.{◌≡◌, ◌+◌, ◌≤◌, length};
ghost use Rattle.std.proofs.lemmas.List.Edits.{sets};
ghost use Rattle.negotiation.specs.Credentials.{max_credentials, fits_credentials, counted_len, name_of, password_of, credentials_with, fresh_credentials};

// How many bytes the two may have together.
const MAX_CREDENTIALS: usize = 120;

// An array with two lengths, no slices or String, since the record is Copy and of fixed memory.
#[derive(Clone, Copy)]
pub struct Credentials {
    pub username_len: usize,
    pub password_len: usize,
    pub bytes: [u8; MAX_CREDENTIALS],
}

pub fn is_within(n: usize, m: usize) -> bool
    ensures { result ≡ fits_credentials n m }
{
    n <= MAX_CREDENTIALS && m <= MAX_CREDENTIALS - n
}

impl Credentials {
    // Where the two are too long together, both are left out.
    pub(crate) fn new(username: &[u8], password: &[u8]) -> Self
        ensures { result ≡ fresh_credentials username.now password.now }
    {
        if is_within(username.len(), password.len()) {
            return Credentials::with(username, password);
        }
        Credentials::with(&[], &[])
    }

    fn with(username: &[u8], password: &[u8]) -> Self
        requires { length username.now + length password.now ≤ max_credentials }
        ensures { result ≡ credentials_with username.now password.now }
    {
        let n = username.len();
        Credentials {
            username_len: n,
            password_len: password.len(),
            bytes: place(place([0; MAX_CREDENTIALS], 0, username), n, password),
        }
    }

    // A length, or 0 where the two do not fit.
    fn counted(&self, n: usize) -> usize
        ensures { result ≡ counted_len self.now n }
    {
        if is_within(self.username_len, self.password_len) {
            return n;
        }
        0
    }

    pub(crate) fn name(&self) -> &[u8]
        ensures { result.now ≡ name_of self.now }
    {
        &self.bytes[..self.counted(self.username_len)]
    }

    pub(crate) fn password(&self) -> &[u8]
        ensures { result.now ≡ password_of self.now }
    {
        let n = self.counted(self.username_len);
        let m = self.counted(self.password_len);
        &self.bytes[n..n + m]
    }
}

// The bytes of `d` from index `at` on; a function, so that its contract says `sets`.
fn place(mut bytes: [u8; MAX_CREDENTIALS], at: usize, d: &[u8]) -> [u8; MAX_CREDENTIALS]
    requires { at + length d.now ≤ max_credentials }
    ensures { result ≡ sets bytes at d.now }
{
    bytes[at..at + d.len()].copy_from_slice(d);
    bytes
}
