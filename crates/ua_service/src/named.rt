//! Enumerations of OPC 10000-4, by their numbers. The structures keep the number as it came; these name the ones that
//! are known.

ghost use Rattle.std.specs.Prelude.{◌≡◌, Some, None, IfSome};
ghost use Rattle.ua_service.specs.Named.{request_type_number, security_mode_number, application_type_number, token_type_number};

/// What an open request asks for (OPC 10000-4, 5.6.2, SecurityTokenRequestType).
#[derive(Clone, Copy, Debug, PartialEq, Eq)]
pub enum RequestType {
    /// A token for a new channel.
    Issue = 0,
    /// A further token of an open channel.
    Renew = 1,
}

impl RequestType {
    /// Its number, as it stands in a message.
    pub fn number(self) -> i32
        ensures { result ≡ request_type_number self }
    {
        match self {
            RequestType::Issue => 0,
            RequestType::Renew => 1,
        }
    }

    /// The one with this number. `None` exactly where no one has it.
    pub fn named(number: i32) -> Option<RequestType>
        ensures named { IfSome result (λ found. request_type_number found ≡ number) }
        ensures none { result ≡ None → (one : RequestType) → request_type_number one ≡ number → ⊥ }
    {
        match number {
            0 => Some(RequestType::Issue),
            1 => Some(RequestType::Renew),
            _ => None,
        }
    }
}

/// How messages are secured (OPC 10000-4, 7.20, MessageSecurityMode).
#[derive(Clone, Copy, Debug, PartialEq, Eq)]
pub enum SecurityMode {
    /// No mode; what a request is refused for.
    Invalid = 0,
    /// Not at all.
    None = 1,
    /// They are signed.
    Sign = 2,
    /// They are signed and encrypted.
    SignAndEncrypt = 3,
}

impl SecurityMode {
    /// Its number, as it stands in a message.
    pub fn number(self) -> i32
        ensures { result ≡ security_mode_number self }
    {
        match self {
            SecurityMode::Invalid => 0,
            SecurityMode::None => 1,
            SecurityMode::Sign => 2,
            SecurityMode::SignAndEncrypt => 3,
        }
    }

    /// The one with this number. `None` exactly where no one has it.
    pub fn named(number: i32) -> Option<SecurityMode>
        ensures named { IfSome result (λ found. security_mode_number found ≡ number) }
        ensures none { result ≡ None → (one : SecurityMode) → security_mode_number one ≡ number → ⊥ }
    {
        match number {
            0 => Some(SecurityMode::Invalid),
            1 => Some(SecurityMode::None),
            2 => Some(SecurityMode::Sign),
            3 => Some(SecurityMode::SignAndEncrypt),
            _ => None,
        }
    }
}

/// What an application is (OPC 10000-4, 7.4).
#[derive(Clone, Copy, Debug, PartialEq, Eq)]
pub enum ApplicationType {
    /// A server.
    Server = 0,
    /// A client.
    Client = 1,
    /// Both.
    ClientAndServer = 2,
    /// A server that knows others.
    DiscoveryServer = 3,
}

impl ApplicationType {
    /// Its number, as it stands in a message.
    pub fn number(self) -> i32
        ensures { result ≡ application_type_number self }
    {
        match self {
            ApplicationType::Server => 0,
            ApplicationType::Client => 1,
            ApplicationType::ClientAndServer => 2,
            ApplicationType::DiscoveryServer => 3,
        }
    }

    /// The one with this number. `None` exactly where no one has it.
    pub fn named(number: i32) -> Option<ApplicationType>
        ensures named { IfSome result (λ found. application_type_number found ≡ number) }
        ensures none { result ≡ None → (one : ApplicationType) → application_type_number one ≡ number → ⊥ }
    {
        match number {
            0 => Some(ApplicationType::Server),
            1 => Some(ApplicationType::Client),
            2 => Some(ApplicationType::ClientAndServer),
            3 => Some(ApplicationType::DiscoveryServer),
            _ => None,
        }
    }
}

/// How a user shows who it is (OPC 10000-4, 7.43, UserTokenType).
#[derive(Clone, Copy, Debug, PartialEq, Eq)]
pub enum TokenType {
    /// Not at all.
    Anonymous = 0,
    /// By a name and a password.
    UserName = 1,
    /// By a certificate.
    Certificate = 2,
    /// By a token that another service issued.
    IssuedToken = 3,
}

impl TokenType {
    /// Its number, as it stands in a message.
    pub fn number(self) -> i32
        ensures { result ≡ token_type_number self }
    {
        match self {
            TokenType::Anonymous => 0,
            TokenType::UserName => 1,
            TokenType::Certificate => 2,
            TokenType::IssuedToken => 3,
        }
    }

    /// The one with this number. `None` exactly where no one has it.
    pub fn named(number: i32) -> Option<TokenType>
        ensures named { IfSome result (λ found. token_type_number found ≡ number) }
        ensures none { result ≡ None → (one : TokenType) → token_type_number one ≡ number → ⊥ }
    {
        match number {
            0 => Some(TokenType::Anonymous),
            1 => Some(TokenType::UserName),
            2 => Some(TokenType::Certificate),
            3 => Some(TokenType::IssuedToken),
            _ => None,
        }
    }
}
