//! A datagram for a connection: its mailbox is asked for a place, and then the payload is posted.
ghost use Rattle.std.specs.Prelude.{◌≡◌, ◌+◌, ◌^◌, ◌-◌, ◌<◌, ◌≤◌, [], ◌∷◌, All, IfOk, IfSome, IsTrue, is_some, List, ℕ, false, length, map, option_map, option_to_list, slice_range, true, vec_capacity, Some, None};
ghost use Rattle.lw_base.specs.EventWord.{is_set};
ghost use Rattle.lw_base.specs.declared.event_word.Flag.{Flag};
ghost use Rattle.lw_payload.specs.Views.{IsOf};
ghost use Rattle.lw_payload.specs.Totals.{total, IsOwned};
ghost use Rattle.lw_events.specs.Events.{had_place};
ghost use Rattle.lw_conn.specs.Connections.{Connections, connection};
ghost use Rattle.lw_boxes.specs.declared.item.Item.{Item};
ghost use Rattle.lw_layers.specs.Boxes.{AreAsked, AreBoxesOf};
ghost use Rattle.lw_input.specs.PostPlans.{delivery_in, IsGoing};
ghost use Rattle.lw_layers.specs.Layers.{delivery_by, posted_by, HasPlace, IsHanded, IsMail, IsOffer, IsOfferOf};
ghost use Rattle.lw_layers.specs.Posts.{first_place, post_of, posted_to, posts_of, IsOffered, IsPosting};

use crate::NoMemory;
use crate::change::cut_to;
use crate::layers::Layers;
use lw_base::{Ip, Octets, Port};
use lw_boxes::{Boxes, Item};
use lw_events::{ItemText, Post, PostList};
use lw_input::PostPlan;
use lw_payload::{Payload, spend_if};
use std::alloc::Global;

/// A datagram for a connection, and its data as the entry tells it. Its place is that of the data in the
/// payload that is posted.
#[derive(Drop)]
pub struct Mail {
    pub post: PostPlan,
    pub octets: Octets,
}

/// What was made of a datagram for a connection: the posts that the entry tells, and what is to be posted,
/// where its mailbox has a place.
#[derive(Drop)]
pub struct Offer {
    pub posts: PostList,
    pub post: Option<PostPlan>,
}

/// A datagram for a connection, if it goes to one, with its data, which is in this data of a datagram;
/// before that stand so many octets in the payload that is posted.
pub fn mail_of(
    alloc: Global,
    post: Option<PostPlan>,
    body: &[u8],
    before: u32,
) -> Result<Option<Mail>, NoMemory>
    requires within { IfSome post (λ p. p.place + p.count ≤ length body.now) }
    requires few { before + length body.now < 2 ^ 32 }
    ensures delivery { IfOk result (λ m. option_map delivery_by m ≡ option_map (delivery_in body.now) post) }
    ensures mail { IfOk result (λ m. (cs : Connections) (octets : List ℕ) → IfSome post (IsGoing cs (length body.now))
        → before + length body.now ≤ length octets → body.now ≡ slice_range octets before (before + length body.now) → IfSome m (IsMail cs (Some octets))) }
{
    let Some(post) = post else {
        return Ok(None);
    };
    let from = post.place as usize;
    let data = &body[from..from + post.count as usize];
    let octets = Octets::from_vec(Vec::from_slice(alloc, data)?);
    let place = before + post.place;
    Ok(Some(Mail {
        post: PostPlan { place, ..post },
        octets,
    }))
}

impl<P: Payload> Layers<P> {
    /// Asks the mailbox of the connection that a datagram goes to for a place, if there is one.
    pub fn offer<B: Boxes<P>>(
        &self,
        alloc: Global,
        mail: Option<Mail>,
        boxes: &mut B,
    ) -> Result<Offer, NoMemory>
        requires boxes { AreBoxesOf self.now.endpoints.conns (B.seen boxes.old) }
        requires live { IfSome mail (λ m. IsTrue (is_some (connection self.now.endpoints.conns m.post.conn))) }
        ensures offer { IfOk result (IsOffer self.now.endpoints.conns mail) }
        ensures place { IfOk result (λ o. HasPlace (B.seen boxes.new) o.post) }
        ensures offers { IfOk result (λ o. All (IsOffered B.offers boxes.old) o.posts) }
        ensures asked { AreAsked (B.seen boxes.old) (B.seen boxes.new) }
        ensures terms { B.terms boxes.new ≡ B.terms boxes.old }
    {
        let Some(mail) = mail else {
            return Ok(no_offer(alloc));
        };
        let posts = Vec::with_capacity(alloc, 1)?;
        let ticket = self.posted_to(mail.post.conn);
        if boxes.has_place(mail.post.conn, 0) {
            Ok(taken(posts, mail, ticket))
        } else {
            Ok(refused(posts, mail.post.conn))
        }
    }

    /// How many items were posted to a connection.
    fn posted_to(&self, conn: u32) -> u32
        ensures { result ≡ posted_to self.now.endpoints.conns conn }
    {
        match self.endpoints.connection(conn) {
            Some(connection) => connection.posted,
            None => 0,
        }
    }

    /// Posts what is left of a frame to the connection that it is for, where there is a place; else it is
    /// given up.
    pub fn deliver<B: Boxes<P>>(
        &mut self,
        home: &mut P::Home,
        boxes: &mut B,
        rest: Option<P>,
        offer: &Offer,
    )
        requires owned { IsOwned (P.home_seen home.old) (total P.seen (P.home_seen home.old).pools.family (option_to_list rest)) }
        requires offer { IsOfferOf self.old.endpoints.conns (option_map (λ p. (P.seen p).octets) rest) offer.now }
        requires place { HasPlace (B.seen boxes.old) offer.now.post }
        requires boxes { AreBoxesOf self.old.endpoints.conns (B.seen boxes.old) }
        requires fits { (ip : Ip) (port : Port) (p : P) → (P.seen p).family ≡ (P.home_seen home.old).pools.family → B.fits (B.terms boxes.old) (Item.Datagram ip port p) }
        ensures layers { self.new ≡ record self.old { endpoints = record self.old.endpoints { conns = posted_by self.old.endpoints.conns offer.now.post } } }
        ensures posting { IsPosting P.seen (P.home_seen home.old) (P.home_seen home.new) offer.now.posts (B.seen boxes.old) (B.seen boxes.new) (option_to_list rest) [] }
        ensures boxes { AreBoxesOf self.new.endpoints.conns (B.seen boxes.new) }
        ensures terms { B.terms boxes.new ≡ B.terms boxes.old }
    {
        let Some(post) = offer.post else {
            spend_if(home, rest);
            return;
        };
        let Some(rest) = rest else { unreachable!() };
        self.endpoints.count_post(post.conn);
        hand(home, boxes, rest, post);
    }
}

/// No datagram goes to a connection.
fn no_offer(alloc: Global) -> Offer
    ensures { result ≡ record { posts = []; post = None } }
{
    Offer {
        posts: PostList::from_vec(Vec::new(alloc)),
        post: None,
    }
}

/// The mailbox has a place: the post is told with the ticket, and is to be made. There is room for it.
fn taken(mut posts: Vec<Post>, mail: Mail, ticket: u32) -> Offer
    requires empty { posts.items ≡ [] }
    requires room { 0 < vec_capacity posts }
    ensures { (cs : Connections) → ticket ≡ posted_to cs mail.post.conn → result ≡ record { posts = post_of cs (delivery_by mail) true ∷ []; post = Some mail.post } }
{
    let Mail { post, octets } = mail;
    posts.push_reserved(Post::Item {
        conn: post.conn,
        ticket,
        text: ItemText::Datagram(post.ip, post.port, octets),
    });
    Offer {
        posts: PostList::from_vec(posts),
        post: Some(post),
    }
}

/// The mailbox of a connection is full, which is told. There is room for it.
fn refused(mut posts: Vec<Post>, conn: u32) -> Offer
    requires empty { posts.items ≡ [] }
    requires room { 0 < vec_capacity posts }
    ensures { result ≡ record { posts = Post.Full conn ∷ []; post = None } }
{
    posts.push_reserved(Post::Full(conn));
    Offer {
        posts: PostList::from_vec(posts),
        post: None,
    }
}

/// Posts a payload, cut to the data of a datagram.
fn hand<P: Payload, B: Boxes<P>>(home: &mut P::Home, boxes: &mut B, mut payload: P, post: PostPlan)
    requires of_home { IsOf (P.home_seen home.old) (P.seen payload) }
    requires within { post.place + post.count ≤ length (P.seen payload).octets }
    requires made { (0 < post.conn) × (post.conn ≤ (B.seen boxes.old).made) }
    requires found { (B.seen boxes.old).found post.conn ((B.seen boxes.old).box post.conn).posted ≡ true }
    requires open { is_set Flag.Closed ((B.seen boxes.old).box post.conn).flags ≡ false }
    requires fits { (p : P) → (P.seen p).family ≡ (P.home_seen home.old).pools.family → B.fits (B.terms boxes.old) (Item.Datagram post.ip post.port p) }
    ensures handed { IsHanded P.seen (P.home_seen home.old) (P.home_seen home.new) payload post (B.seen boxes.old) (B.seen boxes.new) }
    ensures terms { B.terms boxes.new ≡ B.terms boxes.old }
{
    let to = post.place + post.count;
    cut_to(&mut payload, home, post.place, to);
    boxes.post(post.conn, Item::Datagram(post.ip, post.port, payload));
}
