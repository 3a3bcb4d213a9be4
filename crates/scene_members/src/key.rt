//! The members of a scenario's objects: their spelling, and the ranges of those that are numbers.
ghost use Rattle.std.specs.Prelude.{◌≡◌};
ghost use Rattle.scene_members.specs.Keys.{key_word, least_of, greatest_value};

/// A member of a scenario's objects.
#[derive(Clone, Copy)]
pub enum Key {
    Version,
    Programs,
    Traces,
    Cases,
    Shared,
    Name,
    Agent,
    Trace,
    Mss,
    Queue,
    DelayUs,
    TimeoutUs,
    Acks,
    Slots,
    Lag,
    Losses,
    Mark,
    StartUs,
    Ss,
    Ca,
    Cwnd,
    Steps,
    QuantumUs,
    Rounds,
}

impl Key {
    /// How the member is spelled.
    pub fn word(self) -> &'static str
        ensures { result.now ≡ key_word self }
    {
        match self {
            Key::Version => "version",
            Key::Programs => "programs",
            Key::Traces => "traces",
            Key::Cases => "cases",
            Key::Shared => "shared",
            Key::Name => "name",
            Key::Agent => "agent",
            Key::Trace => "trace",
            Key::Mss => "mss",
            Key::Queue => "queue",
            Key::DelayUs => "delay_us",
            Key::TimeoutUs => "timeout_us",
            Key::Acks => "acks",
            Key::Slots => "slots",
            Key::Lag => "lag",
            Key::Losses => "losses",
            Key::Mark => "mark",
            Key::StartUs => "start_us",
            Key::Ss => "ss",
            Key::Ca => "ca",
            Key::Cwnd => "cwnd",
            Key::Steps => "steps",
            Key::QuantumUs => "quantum_us",
            Key::Rounds => "rounds",
        }
    }

    /// The least value of a member that is a number.
    pub fn least(self) -> u64
        ensures { result ≡ least_of self }
    {
        match self {
            Key::Version | Key::Mss | Key::Queue | Key::TimeoutUs | Key::Slots | Key::Mark => 1,
            Key::QuantumUs | Key::Rounds => 1,
            _ => 0,
        }
    }

    /// The greatest value of a member that is a number, or of an item of one that is a list of numbers.
    pub fn most(self) -> u64
        ensures { result ≡ greatest_value self }
    {
        match self {
            Key::Version => 1,
            Key::Mss => 65_535,
            Key::Queue => 4_096,
            Key::DelayUs => 10_000_000,
            Key::TimeoutUs => 60_000_000,
            Key::Acks => 65_536,
            Key::Slots => 64,
            Key::Lag => 1_000,
            Key::Losses => 4_294_967_295,
            Key::Mark => 4_096,
            Key::StartUs => 10_000_000_000,
            Key::Cwnd => 4_294_967_295,
            Key::QuantumUs => 1_000_000,
            Key::Rounds => 10_000,
            _ => 0,
        }
    }
}
