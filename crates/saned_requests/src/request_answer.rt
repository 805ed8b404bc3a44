use wire_codec::Reply;

/// What is answered to a request.
#[derive(Drop)]
pub enum RequestAnswer {
    One(Reply),
    /// The word of AUTHORIZE, and then the reply of OPEN.
    Two(Reply, Reply),
    /// The session ends with this request.
    Last(Option<Reply>),
}
