// The refusals, each with its number.
ghost use Rattle.std.specs.Prelude.{◌≡◌};
ghost use Rattle.views.specs.Refusals.{number_of, code_of};

#[derive(Clone, Copy, Debug, PartialEq, Eq)]
pub enum Refusal {
    // start
    MembersOutOfRange = 1,
    FirstSetUnfit = 2,
    ListLength = 3,
    // every step
    RecordsUnsound = 4,
    UnknownStep = 5,
    NoSuchMember = 6,
    // create
    SetUnfit = 7,
    IdentifierNotAbove = 8,
    ListFull = 9,
    // join
    NoSuchView = 10,
    NotInSet = 11,
    NotAboveCarrier = 12,
    // pass
    NoCarrierView = 13,
    NoneOutgoing = 14,
    WaitingFull = 15,
    // order
    OrderFull = 16,
    NoneWaiting = 17,
    // deliver
    NoneToDeliver = 18,
    // attempt
    NotAboveClient = 19,
    InfoMissing = 20,
    TestFailed = 21,
    // register
    NoClientView = 22,
    AlreadyRegistered = 23,
    OutgoingFull = 24,
    // hand
    NoneToHand = 25,
    // tell
    ClientNotCarrier = 26,
    NothingNewToTell = 27,
    // safe
    NoneToReport = 28,
    ToldTooLow = 29,
    // collect
    NotAboveSettled = 30,
    RegistrationMissing = 31,
    // reader
    EndsEarly = 32,
    UnknownKind = 33,
    SectionCount = 34,
    EmptySet = 35,
    NotRising = 36,
    ToldOutOfRange = 37,
    BytesLeftOver = 38,
    // writer
    BufferTooShort = 39,
    // bench
    LineUnreadable = 40,
    // member by itself
    AnotherView = 41,
    SenderNotInView = 42,
    TooManyOpen = 43,
    // driver
    ViewNotFresh = 44,
    FormTestFailed = 45,
    // the crossing query
    TooFewPlaces = 46,
}

impl Refusal {
    // The refusal's number.
    pub fn number(self) -> u8
        ensures { result ≡ number_of self }
    {
        self as u8
    }
}

// What every call answers: the result is given, or one refusal.
pub type Verdict = Result<(), Refusal>;

// 0 for accepted, or the refusal's number.
pub fn code(v: Verdict) -> u8
    ensures { result ≡ code_of v }
{
    match v {
        Ok(()) => 0,
        Err(r) => r.number(),
    }
}
