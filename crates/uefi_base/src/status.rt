ghost use Rattle.std.specs.Prelude.{◌≡◌, Some};
ghost use Rattle.uefi_base.specs.StatusCode.{status_code};
ghost use Rattle.uefi_base.specs.Views.{error_status, error_data};
ghost use Rattle.uefi_base.specs.Texts.{status_name, error_text};

use std::{error, fmt};

/// The status of a failed call (UEFI 2.10, Appendix D), for each error that a call returns.
#[derive(Clone, Copy, PartialEq, Eq, Debug)]
pub enum Status {
    /// A parameter is invalid.
    INVALID_PARAMETER,
    /// The size of what a buffer holds is wrong.
    BAD_BUFFER_SIZE,
    /// A buffer is too small for the request.
    BUFFER_TOO_SMALL,
    /// An allocation failed.
    OUT_OF_RESOURCES,
}

/// The bit that is set in the code of every error.
const ERROR_BIT: u64 = 1 << 63;

impl Status {
    /// Returns the code of the status: the number of the error, with bit 63 set.
    pub fn code(self) -> u64
        ensures { result ≡ status_code self }
    {
        let number = match self {
            Status::INVALID_PARAMETER => 2,
            Status::BAD_BUFFER_SIZE => 4,
            Status::BUFFER_TOO_SMALL => 5,
            Status::OUT_OF_RESOURCES => 9,
        };
        ERROR_BIT + number
    }
}

/// Writes the name that the status has in the standard, such as `BUFFER_TOO_SMALL`.
impl fmt::Display for Status {
    ghost output = { λ status. Some (status_name status) };

    fn fmt<W: fmt::Write>(&self, f: &mut fmt::Formatter<W>) -> fmt::Result {
        f.write_str(match self {
            Status::INVALID_PARAMETER => "INVALID_PARAMETER",
            Status::BAD_BUFFER_SIZE => "BAD_BUFFER_SIZE",
            Status::BUFFER_TOO_SMALL => "BUFFER_TOO_SMALL",
            Status::OUT_OF_RESOURCES => "OUT_OF_RESOURCES",
        })
    }
}

/// A status with data of the failed call, such as the size that a buffer needs.
///
/// Two errors are equal if their statuses and their data are.
#[derive(Clone, Copy, PartialEq, Eq, Debug, Drop)]
pub struct Error<D> {
    status: Status,
    data: D,
}

impl<D> Error<D> {
    /// Returns the error with this status and this data.
    pub fn new(status: Status, data: D) -> Error<D>
        ensures status { error_status result ≡ status }
        ensures beside { error_data result ≡ «data» }
    {
        Error { status, data }
    }

    /// Returns the status.
    pub fn status(&self) -> Status
        ensures { result ≡ error_status self.now }
    {
        self.status
    }

    /// Returns the data.
    pub fn data(&self) -> &D
        ensures { result.now ≡ error_data self.now }
    {
        &self.data
    }
}

/// Writes `UEFI error` and the name of the status, whatever the data is.
impl<D> fmt::Display for Error<D> {
    ghost output = { λ error. Some (error_text error) };

    fn fmt<W: fmt::Write>(&self, f: &mut fmt::Formatter<W>) -> fmt::Result {
        let status = self.status;
        write!(f, "UEFI error {status}")
    }
}

impl<D: fmt::Debug + Drop> error::Error for Error<D> {}
